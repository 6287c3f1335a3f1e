//! What a page shows of a timetable.

use crate::selection::Selection;

/// The most cells of grids that a page has if it is not asked for the grids of one kind. A browser
/// opens as many in a few seconds.
pub(crate) const MOST_CELLS: u64 = 80_000;

/// A kind of grids.
#[derive(Clone, Copy, PartialEq, Eq)]
pub enum GridKind {
    /// A grid for each curriculum.
    Curricula,
    /// A grid for each teacher.
    Teachers,
    /// A grid for each room.
    Rooms,
    /// A grid for each course.
    Courses,
}

/// What a page shows of a timetable.
#[derive(Clone, Copy, PartialEq, Eq)]
pub struct PageOptions {
    /// The one whose grid stands alone on the page; all have theirs if it is `None`.
    pub selection: Option<Selection>,
    /// Whether costs are left out.
    pub plain: bool,
    /// The only kind whose grids are shown. The page of a large timetable has one kind in any case,
    /// which is rooms if it is `None`.
    pub grids: Option<GridKind>,
}
