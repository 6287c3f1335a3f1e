//! Rules that are checked lecture by lecture.

ghost use Rattle.std.specs.Prelude.{◌≡◌, ◌++◌, OnOk, filter_map};
ghost use Rattle.std.specs.List.{AllByRecursion as Each};
ghost use Rattle.ctt_problem.specs.Timetable.{Fits};

use crate::adding::push_some;
use crate::finding::Finding;
use ctt_problem::{Instance, NoMemory, Placed};

/// A rule that is checked for each lecture by itself.
pub(crate) trait OfLecture {
    ghost use Rattle.std.specs.Prelude.{◌≡◌, Option};
    ghost use Rattle.ctt_problem.specs.Problem.{Problem};
    ghost use Rattle.ctt_problem.specs.Timetable.{Fits};
    ghost use Rattle.ctt_problem.specs.declared.placed.Placed.{Placed as Lecture};
    ghost use Rattle.ctt_findings.specs.declared.finding.Finding.{Finding as Found};

    /// The finding for a lecture, if there is one.
    ghost finding: { Problem → Lecture → Option Found };

    /// Returns the finding for a lecture, if there is one.
    fn find(instance: &Instance, lecture: &Placed) -> Option<Finding>
        requires { Fits instance.now lecture.now }
        ensures { result ≡ finding instance.now lecture.now };
}

/// A slot in which the course is unavailable.
pub(crate) struct Unavailable;

impl OfLecture for Unavailable {
    ghost use Rattle.ctt_findings.specs.Findings.{availability_finding};

    ghost finding = { availability_finding };

    fn find(instance: &Instance, lecture: &Placed) -> Option<Finding> {
        if !instance.unavailable(lecture.course, lecture.slot) {
            return None;
        }
        Some(Finding::Availability(*lecture))
    }
}

/// A room that is barred for the course.
pub(crate) struct BarredRoom;

impl OfLecture for BarredRoom {
    ghost use Rattle.ctt_findings.specs.Findings.{barred_finding};

    ghost finding = { barred_finding };

    fn find(instance: &Instance, lecture: &Placed) -> Option<Finding> {
        if !instance.barred(lecture.course, lecture.room) {
            return None;
        }
        Some(Finding::Barred(*lecture))
    }
}

/// A room that is blocked in the slot.
pub(crate) struct BlockedRoom;

impl OfLecture for BlockedRoom {
    ghost use Rattle.ctt_findings.specs.Findings.{blocked_finding};

    ghost finding = { blocked_finding };

    fn find(instance: &Instance, lecture: &Placed) -> Option<Finding> {
        if !instance.blocked(lecture.room, lecture.slot) {
            return None;
        }
        Some(Finding::Blocked(*lecture))
    }
}

/// More students than the room has seats: one point for each student above.
pub(crate) struct Overfull;

impl OfLecture for Overfull {
    ghost use Rattle.ctt_findings.specs.Findings.{capacity_finding};

    ghost finding = { capacity_finding };

    fn find(instance: &Instance, lecture: &Placed) -> Option<Finding> {
        let students = instance.students(lecture.course);
        let unseated = students.saturating_sub(instance.capacity(lecture.room));
        if unseated == 0 {
            return None;
        }
        Some(Finding::Capacity(*lecture, u64::from(unseated)))
    }
}

/// Adds the findings on the lectures, one lecture after another.
pub(crate) fn push_of_lectures<K: OfLecture>(
    found: &mut Vec<Finding>,
    instance: &Instance,
    timetable: &[Placed],
) -> Result<(), NoMemory>
    requires { Each (Fits instance.now) timetable.now }
    ensures { OnOk result (found.new.items
        ≡ found.old.items ++ filter_map (K.finding instance.now) timetable.now) }
{
    for lecture in timetable {
        push_some(found, K::find(instance, lecture))?;
    }
    Ok(())
}
