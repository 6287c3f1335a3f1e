//! The tables of all cases.

use crate::blocked::{BLOCKED_PATTERNS, BLOCKED_ROOM};
use crate::cases::{Case, On, Plain, Play, SeatAnswer, Way};
use crate::offered::*;
use crate::texts::{CLASH, JOURNAL, NOTHING, SOLUTION, TOP, WITHOUT_TOP};
use crate::worked::*;

/// Builds a list of ways in which a case is run, each with its name.
macro_rules! plays {
    ($($way:expr => $called:literal),+ $(,)?) => {
        &[$(Play {
            way: $way,
            called: $called,
        }),+]
    };
}

/// Builds a case from its name, its opening, its lines and its ways.
macro_rules! case {
    ($name:literal, $opening:ident, $lines:expr, $plays:expr) => {
        Case {
            name: $name,
            opening: $opening,
            lines: $lines,
            plays: $plays,
        }
    };
}

/// The reports, and the opening written and parsed again.
const REPORTS: &[Play] = plays![
    Way::Plain(Plain::Reports) => "",
    Way::Plain(Plain::Written) => "",
];

/// The reports alone.
const REPORTS_ALONE: &[Play] = plays![Way::Plain(Plain::Reports) => ""];

/// Lines on both kinds of sheets.
const LINES: &[Play] = plays![
    Way::List(On::Lines) => "",
    Way::Grid(On::Lines) => "on the grid sheet",
];

/// One placement on both kinds of sheets.
const PLACEMENT: &[Play] = plays![
    Way::List(On::Placement) => "",
    Way::Grid(On::Placement) => "on the grid sheet",
];

/// Accepted changes on both kinds of sheets.
const ACCEPTED: &[Play] = plays![
    Way::List(On::Accepted) => "",
    Way::Grid(On::Accepted) => "on the grid sheet",
];

/// Accepted changes on both kinds of sheets, where a room and a course are blocked.
const ACCEPTED_BLOCKED: &[Play] = plays![
    Way::List(On::AcceptedBlocked) => "",
    Way::Grid(On::AcceptedBlocked) => "on the grid sheet",
];

/// An input that is read whole.
const INPUT: &[Play] = plays![Way::Plain(Plain::Input) => ""];

/// A script at a shared desk.
const SHARED: &[Play] = plays![Way::Shared => ""];

/// The rows that a line reads.
const ROWS: &[Play] = plays![Way::Plain(Plain::Rows) => ""];

/// A draft on both kinds of sheets.
const DRAFT: &[Play] = plays![
    Way::List(On::Draft) => "",
    Way::Grid(On::Draft) => "on the grid sheet",
];

/// A long draft on both kinds of sheets.
const LONG_DRAFT: &[Play] = plays![
    Way::List(On::LongDraft) => "",
    Way::Grid(On::LongDraft) => "on the grid sheet",
];

/// A script on desks of both kinds of sheets, event by event and all at once, and as a text, with
/// its journal.
const DESK: &[Play] = plays![
    Way::List(On::Step) => "",
    Way::Grid(On::Step) => "on the grid sheet",
    Way::List(On::Run) => "at once",
    Way::Grid(On::Run) => "at once on the grid sheet",
    Way::Script(SeatAnswer::Answers) => "as a script",
    Way::Script(SeatAnswer::Journal) => "",
];

/// Lines that are not events, event by event and as a text.
const BAD: &[Play] = plays![
    Way::Grid(On::Step) => "",
    Way::Script(SeatAnswer::Answers) => "as a script",
];

/// The audit of a journal.
const AUDIT: &[Play] = plays![Way::Grid(On::Audit) => ""];

/// What a journal leaves on both kinds of sheets.
const LEFT: &[Play] = plays![
    Way::List(On::Left) => "",
    Way::Grid(On::Left) => "on the grid sheet",
];

/// An opening that is refused, in each way.
const UNLAWFUL: &[Play] = plays![
    Way::Grid(On::Step) => "",
    Way::Grid(On::Audit) => "",
    Way::Script(SeatAnswer::Answers) => "",
];

/// A script whose answers cannot be flushed.
const UNFLUSHED: &[Play] = plays![Way::Script(SeatAnswer::Unflushed) => ""];

/// A script of whose answers three bytes are taken.
const CUT: &[Play] = plays![Way::Script(SeatAnswer::Cut) => ""];

/// Reports, lines on one sheet, and drafts without a desk.
const ON_SHEETS: &[Case] = &[
    case!("reports", SOLUTION, "", REPORTS),
    case!("on the empty sheet", NOTHING, EMPTY_SHEET, LINES),
    case!("a swap of rooms", NOTHING, SWAP_OF_ROOMS, LINES),
    case!("the border of two days", NOTHING, BORDER, LINES),
    case!("prices and looks on the solution", SOLUTION, PRICES, LINES),
    case!("patterns on the solution", SOLUTION, PATTERNS, LINES),
    case!("offers on the solution", SOLUTION, OFFERS, LINES),
    case!(
        "edits that are refused on the solution",
        SOLUTION,
        REFUSED_EDITS,
        LINES
    ),
    case!("a swap", SOLUTION, SWAP, LINES),
    case!("a drop", SOLUTION, DROP, LINES),
    case!("a room that is taken", WITHOUT_TOP, ROOM_TAKEN, LINES),
    case!("one placement", NOTHING, "", PLACEMENT),
    case!("changes that are accepted", SOLUTION, "", ACCEPTED),
    case!("price place alg B 0 0", NOTHING, PRICE, ROWS),
    case!("cheapest 1 move geo 0 1 * * *", SOLUTION, PATTERN, ROWS),
    case!("slots swap geo 0 1 * * *", SOLUTION, OFFER_ROWS, ROWS),
    case!("swap geo 0 1 top 0 2", NOTHING, SWAP, ROWS),
    case!("drafts", TOP, "", DRAFT),
    case!("a draft of a thousand calls", NOTHING, "", LONG_DRAFT),
];

/// Desks on which drafts are accepted, stale and abandoned.
const ON_DESKS: &[Case] = &[
    case!("phantom", NOTHING, PHANTOM, DESK),
    case!("changed and changed back", NOTHING, CHANGED_BACK, DESK),
    case!("out of turn", NOTHING, OUT_OF_TURN, DESK),
    case!("a price that changed", NOTHING, STALE_PRICE, DESK),
    case!("abandoned", NOTHING, ABANDONED, DESK),
    case!("peeked at", NOTHING, PEEKED, DESK),
    case!("a price that is peeked at", NOTHING, PEEKED_PRICE, DESK),
    case!("the cheapest and the missing", NOTHING, CHEAPEST, DESK),
    case!("what the slots offer", NOTHING, OFFERED, DESK),
];

/// Desks whose drafts are refreshed or left open.
const REFRESHED_DESKS: &[Case] = &[
    case!("refreshed", NOTHING, REFRESHED, DESK),
    case!("not refreshed", NOTHING, NOT_REFRESHED, DESK),
    case!("stale at a refresh", NOTHING, STALE_REFRESH, DESK),
    case!("left open", NOTHING, LEFT_OPEN, DESK),
    case!("refreshed with nothing new", NOTHING, NOTHING_NEW, DESK),
    case!("stale behind a refresh", NOTHING, STALE_AGAIN, DESK),
    case!(
        "changed back before a refresh",
        NOTHING,
        BACK_REFRESHED,
        DESK
    ),
];

/// Lines that are not events, and desks that find a slot in use.
const REFUSING_DESKS: &[Case] = &[
    case!("bad lines", NOTHING, BAD_LINES, BAD),
    case!("patterns with a slot", NOTHING, BAD_SLOTS, BAD),
    case!(
        "a drop and a placement in one slot",
        WITHOUT_TOP,
        DROP_AND_PLACE,
        DESK
    ),
    case!("the drop first", WITHOUT_TOP, DROP_FIRST, DESK),
    case!("a refused edit", WITHOUT_TOP, REFUSED, DESK),
];

/// Shared desks, run on one thread.
const ON_SHARED_DESKS: &[Case] = &[
    case!("a receipt is learnt", NOTHING, LEARNT, SHARED),
    case!("all see a commit", NOTHING, ALL_SEE, SHARED),
    case!("a draft is dropped", NOTHING, DROPPED, SHARED),
    case!(
        "refreshed between planners",
        NOTHING,
        REFRESHED_BETWEEN,
        SHARED
    ),
    case!("stale between planners", NOTHING, STALE_BETWEEN, SHARED),
    case!("an unlawful opening of a shared desk", CLASH, "", SHARED),
];

/// Journals, and answers that cannot be flushed.
const TEXTS: &[Case] = &[
    case!("another reply", WITHOUT_TOP, OTHER_JOURNAL, AUDIT),
    case!("what a journal leaves", WITHOUT_TOP, TOP_JOURNAL, LEFT),
    case!(
        "what another reply leaves",
        WITHOUT_TOP,
        OTHER_JOURNAL,
        LEFT
    ),
    case!("other offers", NOTHING, OFFER_JOURNAL, AUDIT),
    case!("an unlawful opening", CLASH, JOURNAL, UNLAWFUL),
    case!("what an unlawful opening leaves", CLASH, JOURNAL, LEFT),
    case!(
        "answers that are not passed on",
        NOTHING,
        PHANTOM,
        UNFLUSHED
    ),
    case!(
        "answers of which three bytes are taken",
        NOTHING,
        OUT_OF_TURN,
        CUT
    ),
    case!("an input of four bytes", NOTHING, "four", INPUT),
    case!("an input of five bytes", NOTHING, "fives", INPUT),
    case!("a journal that agrees", NOTHING, OTHER_JOURNAL, AUDIT),
];

/// Cases while room A is barred for top: an old journal, and a swap and a script that need that
/// room.
pub(crate) const BARRED: &[Case] = &[
    case!("an old journal", NOTHING, OTHER_JOURNAL, AUDIT),
    case!("a swap into a barred room", SOLUTION, SWAP, LINES),
    case!("a barred room", WITHOUT_TOP, BARRED_ROOM, DESK),
];

/// Cases while room A is barred for alg.
pub(crate) const OTHER_BARRED: &[Case] = &[case!("", SOLUTION, "", REPORTS_ALONE)];

/// Cases while room B is blocked in the second period of the first day, and top in that of the
/// second.
const BLOCKED: &[Case] = &[
    case!(
        "changes beside what is blocked",
        WITHOUT_TOP,
        "",
        ACCEPTED_BLOCKED
    ),
    case!(
        "patterns beside what is blocked",
        WITHOUT_TOP,
        BLOCKED_PATTERNS,
        LINES
    ),
    case!(
        "offers beside what is blocked",
        WITHOUT_TOP,
        BLOCKED_OFFERS,
        LINES
    ),
    case!("a blocked room", WITHOUT_TOP, BLOCKED_ROOM, DESK),
];

/// Cases while a room, a teacher and a course are blocked where the solution has lectures.
const CLOSED: &[Case] = &[
    case!("", SOLUTION, "", REPORTS_ALONE),
    case!("an opening that is blocked", SOLUTION, JOURNAL, LEFT),
    case!("an old journal and closures", NOTHING, TOP_JOURNAL, AUDIT),
];

/// Cases while rooms are blocked in slots of which lectures go through in a swap.
const SWAPPED: &[Case] = &[case!("a swap beside what is blocked", SOLUTION, SWAP, LINES)];

// A use of a constant costs more the longer the constant is, so each table has a function that
// names it only once.

/// Returns the cases with reports, lines on one sheet, and drafts without a desk.
pub(crate) fn on_sheets() -> &'static [Case] {
    ON_SHEETS
}

/// Returns the cases of desks on which drafts are accepted, stale and abandoned.
pub(crate) fn on_desks() -> &'static [Case] {
    ON_DESKS
}

/// Returns the cases of desks whose drafts are refreshed or left open.
pub(crate) fn refreshed_desks() -> &'static [Case] {
    REFRESHED_DESKS
}

/// Returns the cases with lines that are not events, and of desks that find a slot in use.
pub(crate) fn refusing_desks() -> &'static [Case] {
    REFUSING_DESKS
}

/// Returns the cases of shared desks.
pub(crate) fn on_shared_desks() -> &'static [Case] {
    ON_SHARED_DESKS
}

/// Returns the cases with journals, and with answers that cannot be flushed.
pub(crate) fn of_texts() -> &'static [Case] {
    TEXTS
}

/// Returns the cases with a blocked room and a course that is closed.
pub(crate) fn blocked() -> &'static [Case] {
    BLOCKED
}

/// Returns the cases with lectures where rooms, teachers and courses are blocked.
pub(crate) fn closed() -> &'static [Case] {
    CLOSED
}

/// Returns the cases of swaps past blocked rooms.
pub(crate) fn swapped() -> &'static [Case] {
    SWAPPED
}
