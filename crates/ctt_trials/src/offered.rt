//! Looks at what the slots offer to the edits of a pattern.

/// What the slots offer on the solution: to moves, to swaps, and where no edit can be made.
pub(crate) const OFFERS: &str = "slots move geo 1 2 * * *
slots move geo 1 2 B * *
slots swap geo 0 1 * * *
slots swap top 0 2 * * *
slots place top * * *
slots move geo 0 0 * * *
slots swap geo 0 0 * * *
";

/// What the slots offer on an empty timetable, on which another planner places a lecture, and a
/// third one looks in a draft that is accepted.
pub(crate) const OFFERED: &str = "0 open
0 peek slots place top B * *
0 slots place geo A * *
1 open
1 place geo A 0 1
1 commit
0 commit
show slots place top * * *
2 open
2 slots move geo 0 1 * * *
2 commit
";

/// Lines that name a slot, or no edit that leads to another slot.
pub(crate) const BAD_SLOTS: &str = "0 slots place top * 0 1
0 slots move geo 0 1 * * 1
0 slots swap geo 0 1 top 0 2
0 slots reroom geo * 0 1
0 slots drop geo 0 1
0 slots 5 place top * * *
0 slots
0 open
0 slots place top * * *
";

/// A look whose rows are those of the same pattern in `cheapest`.
pub(crate) const OFFER_ROWS: &str = "slots swap geo 0 1 * * *";

/// What the slots offer beside what is blocked.
pub(crate) const BLOCKED_OFFERS: &str = "slots place top * * *
slots place top B * *
slots move geo 1 2 B * *
slots swap geo 0 1 * * *
";

/// A journal with an answer of each kind, which is not what the slots offer.
pub(crate) const OFFER_JOURNAL: &str = "journal 1 entry 0 1 slots place alg * * * slots 4 \
    -3 place alg B 0 0 - clash geo - full - none END.";
