//! The scripts of the worked desks, and the lines that are played on one sheet.

/// A planner has seen that a slot is empty, and another one fills it.
pub(crate) const PHANTOM: &str = "0 open
0 slot 0 2
0 place geo A 0 1
1 open
1 place top B 0 2
1 commit
0 commit
show cost
";

/// The same, but the other planner's lecture is removed again before the first one commits.
pub(crate) const CHANGED_BACK: &str = "0 open
0 slot 0 2
0 place geo A 0 1
1 open
1 place top B 0 2
1 commit
1 open
1 drop top 0 2
1 commit
0 commit
show cost
";

/// A planner peeks at an empty slot, which another one fills. The draft does not depend on a peek.
pub(crate) const PEEKED: &str = "0 open
0 peek slot 0 2
0 place geo A 0 1
1 open
1 place top B 0 2
1 commit
0 peek slot 0 2
0 commit
0 peek slot 0 2
show cost
";

pub(crate) const DROP_AND_PLACE: &str = "0 open
1 open
0 drop geo 1 2
1 place top B 1 2
1 commit
0 commit
show slot 1 2
";

pub(crate) const DROP_FIRST: &str = "0 open
1 open
0 drop geo 1 2
1 place top B 1 2
0 commit
1 commit
";

pub(crate) const OUT_OF_TURN: &str = "0 commit
0 open
0 open
0 commit
show cost
";

pub(crate) const STALE_PRICE: &str = "0 open
0 price place alg B 0 0
1 open
1 place geo A 0 1
1 commit
0 commit
";

/// The same with a peek at a price.
pub(crate) const PEEKED_PRICE: &str = "0 open
0 peek price place alg B 0 0
1 open
1 place geo A 0 1
1 commit
0 peek price place alg B 0 0
0 place alg B 0 0
0 commit
";

/// The missing lectures and the cheapest edits on an empty timetable, on which another planner
/// places a lecture.
pub(crate) const CHEAPEST: &str = "0 open
0 missing
0 peek cheapest 2 place top B * *
0 cheapest 4 place alg * 1 1
1 open
1 place geo A 0 1
1 commit
0 commit
show cheapest 4 place top * * *
show missing
";

pub(crate) const REFUSED: &str = "0 open
0 place top A 0 1
0 commit
";

pub(crate) const ABANDONED: &str = "0 open
0 place geo A 0 1
0 abandon
0 abandon
show cost
";

/// A planner refreshes a draft, and sees what another one placed.
pub(crate) const REFRESHED: &str = "0 open
0 place geo A 0 1
1 open
1 place top B 0 2
1 commit
0 refresh
0 slot 0 2
0 commit
show cost
";

pub(crate) const NOT_REFRESHED: &str = "0 open
0 place geo A 0 1
1 open
1 place top B 0 2
1 commit
0 slot 0 2
0 commit
";

pub(crate) const STALE_REFRESH: &str = "0 open
0 slot 0 2
0 place geo A 0 1
1 open
1 place top B 0 2
1 commit
0 refresh
0 commit
0 refresh
show cost
";

/// Planners refresh drafts after which nothing was accepted, or only their own draft.
pub(crate) const NOTHING_NEW: &str = "0 open
0 place geo A 0 1
0 refresh
0 commit
0 open
0 slot 0 1
0 refresh
0 drop geo 0 1
0 refresh
0 commit
0 refresh
show cost
";

/// What a planner sees after a refresh is changed before the commit.
pub(crate) const STALE_AGAIN: &str = "0 open
0 place geo A 0 1
1 open
1 place top B 0 2
1 commit
0 refresh
0 slot 0 2
1 open
1 drop top 0 2
1 commit
0 commit
show cost
";

/// What a planner has seen is changed, and changed back, before the draft is refreshed.
pub(crate) const BACK_REFRESHED: &str = "0 open
0 slot 0 2
0 place geo A 0 1
1 open
1 place top B 0 2
1 commit
1 open
1 drop top 0 2
1 commit
0 refresh
0 slot 0 2
0 commit
show cost
";

/// A draft that is left open changes nothing.
pub(crate) const LEFT_OPEN: &str = "0 open
0 place geo A 0 1
1 open
1 place top B 0 2
1 commit
show cost
";

pub(crate) const BAD_LINES: &str = "64 open
0 place nul A 0 0
0 slot 0 3
0 open now

0\topen\r
";

pub(crate) const BARRED_ROOM: &str = "0 open
0 place top A 0 1
0 place top A 0 0
0 place top B 0 0
0 place geo A 0 0
0 commit
";

/// The cost of the empty sheet, and one placement there.
pub(crate) const EMPTY_SHEET: &str = "cost
coursecost alg
place geo A 0 0
price place geo A 0 1
place geo A 0 1
course geo
slot 0 1
";

/// Prices and looks, on the solution.
pub(crate) const PRICES: &str = "price move geo 1 2 A 1 1
price reroom alg B 0 0
price reroom alg A 0 0
price swap geo 0 1 top 0 2
teacher t1
curriculum q1
coursecost alg
coursecost top
cost
";

/// The missing lectures, and the cheapest edits of patterns, on the solution.
pub(crate) const PATTERNS: &str = "missing
cheapest 3 move geo 1 2 * * *
cheapest 9 move geo 1 2 A * *
cheapest 9 move geo 1 2 * 1 1
cheapest 5 reroom alg * 0 0
cheapest 5 reroom alg B 0 0
cheapest 20 swap geo 0 1 * * *
cheapest 20 swap top 0 2 * * *
cheapest 4 place top * * *
cheapest 4 move geo 0 0 * * *
cheapest 0 move geo 1 2 * * *
";

/// Edits that are refused, on the solution.
pub(crate) const REFUSED_EDITS: &str = "place alg A 1 1
place alg B 0 0
price place alg A 1 1
move geo 0 1 B 0 1
move geo 0 0 B 0 1
move geo 0 0 B 0 0
swap alg 0 0 alg 1 0
swap geo 0 0 top 0 2
";

pub(crate) const SWAP: &str = "swap geo 0 1 top 0 2";

/// A drop, and edits that are impossible after it.
pub(crate) const DROP: &str = "drop geo 1 2
place geo A 1 0
drop geo 1 2
reroom geo B 1 2
";

pub(crate) const ROOM_TAKEN: &str = "place top A 0 1";

/// Two lectures in one slot, on the empty sheet, which swap their rooms.
pub(crate) const SWAP_OF_ROOMS: &str = "place geo A 0 1
place top B 0 1
swap geo 0 1 top 0 1
";

/// Lectures of a curriculum on both sides of the border between two days, on the empty sheet.
pub(crate) const BORDER: &str = "place alg A 0 2
place geo A 1 0
";

/// A call that reads two courses and a slot.
pub(crate) const PRICE: &str = "price place alg B 0 0";

/// A call that reads a course with those in its curricula, and all slots.
pub(crate) const PATTERN: &str = "cheapest 1 move geo 0 1 * * *";

/// A journal of a draft in which top was placed in room A.
pub(crate) const OTHER_JOURNAL: &str = "journal 1 entry 0 1 place top A 0 1 done END.";

/// A journal of a draft in which top was placed in room B.
pub(crate) const TOP_JOURNAL: &str = "journal 1 entry 0 1 place top B 0 2 done END.";

/// At a shared desk, a planner commits, and another one learns the receipt, looks and opens a
/// draft.
pub(crate) const LEARNT: &str = "0 open
0 place geo A 0 1
0 commit
0 open
0 slot 0 1
1 learn
1 show slot 0 1
1 open
1 slot 0 1
";

/// A planner has seen that a slot is empty, and another one fills it. Two more planners, who have
/// learnt nothing, see that.
pub(crate) const ALL_SEE: &str = "0 open
1 open
0 slot 0 2
1 place top B 0 2
1 commit
0 commit
2 show slot 0 2
3 open
3 slot 0 2
3 abandon
";

/// A planner with an open draft leaves before another one opens a draft.
pub(crate) const DROPPED: &str = "0 open
0 place geo A 0 1
0 leave
1 open
1 place top B 0 2
1 commit
";

/// A planner refreshes a draft, and sees what another one placed.
pub(crate) const REFRESHED_BETWEEN: &str = "0 open
1 open
0 place geo A 0 1
1 place top B 0 2
1 commit
0 refresh
0 slot 0 2
0 commit
";

/// The same, but the planner has seen that the slot was empty.
pub(crate) const STALE_BETWEEN: &str = "0 open
1 open
0 place geo A 0 1
0 slot 0 2
1 place top B 0 2
1 commit
0 refresh
";
