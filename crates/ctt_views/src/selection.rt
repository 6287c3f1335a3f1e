//! The selection of lectures to show.

ghost use Rattle.std.specs.Prelude.{◌≡◌, ◌<◌, IfOk, filter};
ghost use Rattle.std.specs.List.{AllByRecursion as Each};
ghost use Rattle.ctt_problem.specs.Problem.{slot_count};
ghost use Rattle.ctt_problem.specs.Timetable.{Fits};
ghost use Rattle.ctt_views.specs.Week.{SelectionFits, is_closed, is_selected};

use crate::closures::teacher_closed;
use ctt_problem::{CourseNo, CurriculumNo, Instance, Placed, RoomNo, SlotNo, TeacherNo};
use std::alloc::{AllocError, Global};

/// The curriculum, teacher, course or room whose week is shown.
#[derive(Clone, Copy, PartialEq, Eq)]
pub enum Selection {
    /// The lectures of a curriculum's members.
    Curriculum(CurriculumNo),
    /// The lectures of a teacher's courses. The slots in which closures block them all are marked.
    Teacher(TeacherNo),
    /// The lectures of a course. The slots in which it is unavailable are marked.
    Course(CourseNo),
    /// The lectures in a room. The slots in which it is blocked are marked.
    Room(RoomNo),
}

/// Returns whether a lecture is in a selection.
fn is_selected(instance: &Instance, selection: &Selection, lecture: &Placed) -> bool
    requires selection { SelectionFits instance.now selection.now }
    requires lecture { Fits instance.now lecture.now }
    ensures { result ≡ is_selected instance.now selection.now lecture.now }
{
    match selection {
        Selection::Curriculum(curriculum) => {
            instance.members(*curriculum).contains(&lecture.course)
        }
        Selection::Teacher(teacher) => instance.teacher(lecture.course) == *teacher,
        Selection::Course(course) => lecture.course == *course,
        Selection::Room(room) => lecture.room == *room,
    }
}

/// Returns whether the selection is a course that is unavailable in the slot, or a room that is
/// blocked in it, or a teacher all of whose courses closures block in it.
pub(crate) fn is_closed(instance: &Instance, selection: &Selection, slot: SlotNo) -> bool
    requires selection { SelectionFits instance.now selection.now }
    requires slot { slot < slot_count instance.now }
    ensures { result ≡ is_closed instance.now selection.now slot }
{
    match selection {
        Selection::Curriculum(_) => false,
        Selection::Teacher(teacher) => teacher_closed(instance, *teacher, slot),
        Selection::Course(course) => instance.unavailable(*course, slot),
        Selection::Room(room) => instance.blocked(*room, slot),
    }
}

/// Returns the lectures of a timetable that are in a selection.
pub(crate) fn select(
    alloc: Global,
    instance: &Instance,
    selection: &Selection,
    timetable: &[Placed],
) -> Result<Vec<Placed>, AllocError>
    requires selection { SelectionFits instance.now selection.now }
    requires fits { Each (Fits instance.now) timetable.now }
    ensures selected { IfOk result (λ list.
        list.items ≡ filter (is_selected instance.now selection.now) timetable.now) }
    ensures fits { IfOk result (λ list. Each (Fits instance.now) list.items) }
{
    let mut list = Vec::new(alloc);
    for lecture in timetable {
        if is_selected(instance, selection, lecture) {
            list.push(*lecture)?;
        }
    }
    Ok(list)
}
