//! The grids of the page.

ghost use Rattle.std.specs.Prelude.{◌≡◌, ◌<◌, Some};
ghost use Rattle.ctt_problem.specs.Problem.{slot_count};
ghost use Rattle.ctt_problem.specs.Timetable.{Fits};
ghost use Rattle.ctt_views.specs.Grids.{GridFits, grid_id, is_blocked_in, is_closed, is_of, name_of, place_id, word_of};

use crate::closures::teacher_closed;
use ctt_problem::{CourseNo, CurriculumNo, Instance, Placed, RoomNo, SlotNo, TeacherNo};
use std::fmt;

/// The curriculum, teacher, room or course whose lectures a grid shows. Displayed as the id of the grid.
#[derive(Clone, Copy, PartialEq, Eq)]
pub enum Grid {
    /// The lectures of a curriculum's members.
    Curriculum(CurriculumNo),
    /// The lectures of a teacher's courses.
    Teacher(TeacherNo),
    /// The lectures in a room.
    Room(RoomNo),
    /// The lectures of a course.
    Course(CourseNo),
}

/// Returns whether a lecture belongs to a grid.
pub(crate) fn is_of(instance: &Instance, grid: &Grid, lecture: &Placed) -> bool
    requires grid { GridFits instance.now grid.now }
    requires lecture { Fits instance.now lecture.now }
    ensures { result ≡ is_of instance.now grid.now lecture.now }
{
    match grid {
        Grid::Curriculum(curriculum) => instance.members(*curriculum).contains(&lecture.course),
        Grid::Teacher(teacher) => instance.teacher(lecture.course) == *teacher,
        Grid::Room(room) => lecture.room == *room,
        Grid::Course(course) => lecture.course == *course,
    }
}

/// Returns the word for what a grid shows.
pub(crate) fn word_of(grid: &Grid) -> &'static str
    ensures { result.now ≡ word_of grid.now }
{
    match grid {
        Grid::Curriculum(_) => "Curriculum",
        Grid::Teacher(_) => "Teacher",
        Grid::Room(_) => "Room",
        Grid::Course(_) => "Course",
    }
}

/// Returns the name of what a grid shows.
pub(crate) fn name_of<'i>(instance: &'i Instance, grid: &Grid) -> &'i str
    requires { GridFits instance.now grid.now }
    ensures { result.now ≡ name_of instance.now grid.now }
{
    match grid {
        Grid::Curriculum(curriculum) => instance.curriculum_name(*curriculum),
        Grid::Teacher(teacher) => instance.teacher_name(*teacher),
        Grid::Room(room) => instance.room_name(*room),
        Grid::Course(course) => instance.course_name(*course),
    }
}

/// Returns whether a grid is that of a course that is unavailable in a slot.
pub(crate) fn is_closed(instance: &Instance, grid: &Grid, slot: SlotNo) -> bool
    requires grid { GridFits instance.now grid.now }
    requires slot { slot < slot_count instance.now }
    ensures { result ≡ is_closed instance.now grid.now slot }
{
    match grid {
        Grid::Curriculum(_) => false,
        Grid::Teacher(_) => false,
        Grid::Room(_) => false,
        Grid::Course(course) => instance.unavailable(*course, slot),
    }
}

/// Returns whether closures block the room of a grid in a slot, or its course, or all courses of its
/// teacher.
pub(crate) fn is_blocked_in(instance: &Instance, grid: &Grid, slot: SlotNo) -> bool
    requires grid { GridFits instance.now grid.now }
    requires slot { slot < slot_count instance.now }
    ensures { result ≡ is_blocked_in instance.now grid.now slot }
{
    match grid {
        Grid::Curriculum(_) => false,
        Grid::Teacher(teacher) => teacher_closed(instance, *teacher, slot),
        Grid::Room(room) => instance.blocked(*room, slot),
        Grid::Course(course) => instance.closed(*course, slot),
    }
}

impl fmt::Display for Grid {
    ghost output = { λ grid. Some (grid_id grid) };

    #[tactic(auto, unfolding(crate::specs::Grids::grid_id))]
    fn fmt<W: fmt::Write>(&self, f: &mut fmt::Formatter<W>) -> fmt::Result {
        match self {
            Grid::Curriculum(curriculum) => {
                let number = curriculum.get();
                write!(f, "c{number}")
            }
            Grid::Teacher(teacher) => {
                let number = teacher.get();
                write!(f, "t{number}")
            }
            Grid::Room(room) => {
                let number = room.get();
                write!(f, "r{number}")
            }
            Grid::Course(course) => {
                let number = course.get();
                write!(f, "k{number}")
            }
        }
    }
}

/// A grid, or the cell of a slot in it. Displayed as its id.
#[derive(Clone, Copy)]
pub(crate) struct Place {
    pub(crate) grid: Grid,
    pub(crate) slot: Option<SlotNo>,
}

impl fmt::Display for Place {
    ghost output = { λ place. Some (place_id place.grid place.slot) };

    #[tactic(auto, unfolding(crate::specs::Grids::place_id))]
    fn fmt<W: fmt::Write>(&self, f: &mut fmt::Formatter<W>) -> fmt::Result {
        let grid = self.grid;
        match self.slot {
            Some(slot) => {
                let number = slot.get();
                write!(f, "{grid}-{number}")
            }
            None => write!(f, "{grid}"),
        }
    }
}
