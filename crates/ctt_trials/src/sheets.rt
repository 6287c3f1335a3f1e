//! Cases on one sheet: edits, looks and refusals.

ghost use Rattle.std.specs.Prelude.{◌≡◌, ◌↔◌, IfOk, IfSome, IsTrue};
ghost use Rattle.std.specs.List.{AllByRecursion as Each};
ghost use Rattle.ctt_problem.specs.Timetable.{Fits};
ghost use Rattle.ctt_edits.specs.Calls.{CallFits};

use crate::cases::{On, Script};
use crate::story::{Story, repeated};
use ctt_board::{Cell, Change, Sheet};
use ctt_core::{DeskFault, Event, PlannerNo, place_all};
use ctt_edits::{Call, Edit, Look, Row, check, look, reads};
use ctt_script::{Lines, read_own_line};
use ctt_text::{CourseNo, Instance, NoMemory, Placed, RoomNo, SlotNo};

/// Parses the call of a line.
pub(crate) fn call_of(small: &Instance, line: &[u8]) -> Option<Call>
    ensures { IfSome result (CallFits small.now) }
{
    match read_own_line(small, PlannerNo::new(0), line) {
        Some(Event::Ask(_, call)) => Some(call),
        _ => None,
    }
}

/// Returns whether the numbers of a lecture are those of a sheet's instance.
fn lecture_fits<'i, S: Sheet<'i>>(sheet: &S, lecture: &Placed) -> bool
    ensures { IsTrue result ↔ Fits (S.problem sheet.now) lecture.now }
{
    lecture.fits(sheet.instance())
}

/// Records the cells of a change: the numbers of course, slot and room, or that there is no room.
pub(crate) fn tell_cells(story: &mut Story, cells: &[Cell]) {
    for cell in cells {
        story.pair("cell", u64::from(cell.course.get()));
        story.pair("", u64::from(cell.slot.get()));
        match cell.room {
            Some(room) => story.count("", u64::from(room.get())),
            None => story.say(" none"),
        }
    }
}

/// Makes an edit on a sheet, and records that it is done, or, in full, its change and the
/// difference of the penalty.
fn make<'i, S: Sheet<'i>>(story: &mut Story, sheet: &mut S, edit: &Edit, in_full: bool) {
    if !edit.fits(sheet.instance()) {
        return story.say("unfit");
    }
    match check(sheet, edit) {
        Ok(change) => {
            if in_full {
                tell_cells(story, change.cells());
                story.difference("delta", sheet.delta(&change));
            } else {
                story.say("done");
            }
            sheet.apply(&change);
        }
        Err(fault) => story.add_refusal(sheet.instance(), fault),
    }
}

/// Looks at a sheet, and records the reply.
fn show<'i, S: Sheet<'i>>(story: &mut Story, sheet: &S, asked: &Look) {
    if !asked.fits(sheet.instance()) {
        return story.say("unfit");
    }
    let alloc = story.alloc();
    let reply = repeated!(story, NoMemory, look(alloc, sheet, asked));
    story.reply(sheet.instance(), reply);
}

/// Records the lectures and the cost of a sheet.
pub(crate) fn tell_sheet<'i, S: Sheet<'i>>(story: &mut Story, sheet: &S) {
    let list = repeated!(story, NoMemory, sheet.list());
    story.timetable(sheet.instance(), list, sheet.cost());
}

/// Makes the calls of a script's lines, and records what the sheet has then.
fn answer_lines<'i, S: Sheet<'i>>(script: &Script<'i>, story: &mut Story, sheet: &mut S) {
    for line in Lines::new(script.lines.as_bytes()) {
        match call_of(script.small, line) {
            Some(Call::Edit(edit)) => make(story, sheet, &edit, false),
            Some(Call::Look(asked)) => show(story, sheet, &asked),
            None => story.bad_line(line),
        }
    }
    tell_sheet(story, sheet);
}

/// Records the room of a lecture on a sheet, the number of lectures of its course, its rows, and
/// the sheet.
fn tell_lecture<'i, S: Sheet<'i>>(story: &mut Story, sheet: &S, lecture: &Placed) {
    if !lecture_fits(sheet, lecture) {
        return story.say("unfit");
    }
    if let Some(room) = sheet.room_at(lecture.course, lecture.slot) {
        story.count("room", u64::from(room.get()));
    }
    story.count("count", u64::from(sheet.count(lecture.course)));
    let of_course = repeated!(story, NoMemory, sheet.course_row(lecture.course));
    story.lectures(sheet.instance(), of_course);
    let of_slot = repeated!(story, NoMemory, sheet.slot_row(lecture.slot));
    story.lectures(sheet.instance(), of_slot);
    tell_sheet(story, sheet);
}

/// Places geo on an empty sheet, in the second period of the first day in room A, and records the
/// sheet and a copy.
fn place_geo<'i, S: Sheet<'i>>(story: &mut Story, sheet: &mut S) {
    tell_sheet(story, sheet);
    let geo = Placed {
        course: CourseNo::new(1),
        slot: SlotNo::new(1),
        room: RoomNo::new(0),
    };
    let edit = Edit::Place(geo.course, geo.slot, geo.room);
    make(story, sheet, &edit, true);
    tell_lecture(story, sheet, &geo);
    match repeated!(story, NoMemory, sheet.copy()) {
        Ok(copy) => tell_lecture(story, &copy, &geo),
        Err(NoMemory) => story.no_memory(),
    }
}

/// Returns a cell in which a lecture is added in a room.
fn added(course: u16, slot: u16, room: u16) -> Cell {
    Cell {
        course: CourseNo::new(course),
        slot: SlotNo::new(slot),
        room: Some(RoomNo::new(room)),
    }
}

/// Returns a cell in which a lecture is removed.
fn removed(course: u16, slot: u16) -> Cell {
    Cell {
        course: CourseNo::new(course),
        slot: SlotNo::new(slot),
        room: None,
    }
}

/// Records whether a sheet accepts a change of these cells.
fn tell_accepted<'i, S: Sheet<'i>>(story: &mut Story, sheet: &S, cells: &[Cell]) {
    tell_cells(story, cells);
    if let Some(change) = Change::of(cells) {
        story.count("accepts", u64::from(sheet.accepts(&change)));
    }
}

/// Records whether a sheet accepts a third course in a room that is taken, the removal of a
/// lecture, and an unknown course.
fn tell_all_accepted<'i, S: Sheet<'i>>(story: &mut Story, sheet: &S) {
    tell_accepted(story, sheet, &[added(2, 1, 0)]);
    tell_accepted(story, sheet, &[removed(1, 5)]);
    tell_accepted(story, sheet, &[added(3, 1, 0)]);
}

/// Records whether a sheet accepts lectures in a blocked room, beside it, and of a course that is
/// closed; a lecture that goes into a blocked room, stays, and leaves.
fn tell_all_blocked<'i, S: Sheet<'i>>(story: &mut Story, sheet: &S) {
    tell_accepted(story, sheet, &[added(2, 1, 1)]);
    tell_accepted(story, sheet, &[added(2, 2, 1)]);
    tell_accepted(story, sheet, &[added(2, 4, 1)]);
    tell_accepted(story, sheet, &[removed(1, 1), added(1, 1, 1)]);
    tell_accepted(story, sheet, &[removed(1, 1), added(1, 1, 0)]);
    tell_accepted(story, sheet, &[removed(1, 1)]);
}

/// Returns a sheet with these lectures.
fn sheet_of<'i, S: Sheet<'i>>(
    story: &mut Story,
    small: &'i Instance,
    lectures: &[Placed],
) -> Result<S, DeskFault>
    requires { Each (Fits small.now) lectures.now }
    ensures { IfOk result (λ sheet. S.problem sheet ≡ small.now) }
{
    let alloc = story.alloc();
    repeated!(
        story,
        DeskFault::NoMemory,
        place_all::<S>(alloc, small, lectures)
    )
}

/// Returns a sheet with the lectures of a script.
pub(crate) fn opened<'i, S: Sheet<'i>>(
    story: &mut Story,
    script: &Script<'i>,
) -> Result<S, DeskFault>
    ensures { IfOk result (λ sheet. S.problem sheet ≡ script.now.small.now) }
{
    sheet_of::<S>(story, script.small, script.opening)
}

/// Returns an empty sheet.
pub(crate) fn empty<'i, S: Sheet<'i>>(story: &mut Story, small: &'i Instance) -> Result<S, NoMemory>
    ensures { IfOk result (λ sheet. S.problem sheet ≡ small.now) }
{
    let alloc = story.alloc();
    repeated!(story, NoMemory, S::empty(alloc, small))
}

/// Runs lines or a placement on a sheet with the lectures of a script.
pub(crate) fn play<'i, S: Sheet<'i>>(script: &Script<'i>, story: &mut Story, on: &On) {
    match opened::<S>(story, script) {
        Ok(mut sheet) => match on {
            On::Placement => place_geo(story, &mut sheet),
            On::Accepted => tell_all_accepted(story, &sheet),
            On::AcceptedBlocked => tell_all_blocked(story, &sheet),
            _ => answer_lines(script, story, &mut sheet),
        },
        Err(_fault) => story.no_memory(),
    }
}

/// Records the rows that the call of a line reads.
pub(crate) fn tell_rows(script: &Script, story: &mut Story) {
    let Some(call) = call_of(script.small, script.lines.as_bytes()) else {
        return story.say("bad line");
    };
    let alloc = story.alloc();
    match repeated!(story, NoMemory, reads(alloc, script.small, &call)) {
        Ok(rows) => {
            for row in &rows {
                match row {
                    Row::Course(course) => story.count("course", u64::from(course.get())),
                    Row::Slot(slot) => story.count("slot", u64::from(slot.get())),
                }
            }
        }
        Err(NoMemory) => story.no_memory(),
    }
}
