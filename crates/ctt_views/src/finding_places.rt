//! The grid and the slot that show a finding.

ghost use Rattle.std.specs.Prelude.{◌≡◌, ◌<◌, IfSome};
ghost use Rattle.ctt_problem.specs.Problem.{slot_count};
ghost use Rattle.ctt_findings.specs.Fitting.{FindingFits};
ghost use Rattle.ctt_views.specs.Items.{cause_grid, grid_at, slot_at};

use crate::grid::Grid;
use ctt_findings::{Cause, Finding};
use ctt_problem::{Instance, SlotNo};

/// Returns the grid of what two courses have in common.
fn cause_grid(cause: &Cause) -> Grid
    ensures { result ≡ cause_grid cause.now }
{
    match cause {
        Cause::Teacher(teacher) => Grid::Teacher(*teacher),
        Cause::Curriculum(curriculum) => Grid::Curriculum(*curriculum),
    }
}

/// Returns the grid that shows a finding. For one on a course alone it is that of the course.
pub(crate) fn grid_at(finding: &Finding) -> Grid
    ensures { result ≡ grid_at finding.now }
{
    match finding {
        Finding::Lectures(course, _, _) => Grid::Course(*course),
        Finding::Conflict(_, _, _, cause) => cause_grid(cause),
        Finding::Availability(lecture) => Grid::Course(lecture.course),
        Finding::Occupancy(lecture) => Grid::Room(lecture.room),
        Finding::Barred(lecture) => Grid::Room(lecture.room),
        Finding::Blocked(lecture) => Grid::Room(lecture.room),
        Finding::Capacity(lecture, _) => Grid::Room(lecture.room),
        Finding::Days(course, _, _, _) => Grid::Course(*course),
        Finding::Compactness(curriculum, _, _) => Grid::Curriculum(*curriculum),
        Finding::Stability(course, _, _) => Grid::Course(*course),
    }
}

/// Returns the slot of a finding. One on a course as a whole has none.
pub(crate) fn slot_at(instance: &Instance, finding: &Finding) -> Option<SlotNo>
    requires { FindingFits instance.now finding.now }
    ensures slot { result ≡ slot_at finding.now }
    ensures fits { IfSome result (λ s. s < slot_count instance.now) }
{
    match finding {
        Finding::Lectures(_, _, _) => None,
        Finding::Conflict(_, _, slot, _) => Some(*slot),
        Finding::Availability(lecture) => Some(lecture.slot),
        Finding::Occupancy(lecture) => Some(lecture.slot),
        Finding::Barred(lecture) => Some(lecture.slot),
        Finding::Blocked(lecture) => Some(lecture.slot),
        Finding::Capacity(lecture, _) => Some(lecture.slot),
        Finding::Days(_, _, _, _) => None,
        Finding::Compactness(_, lecture, _) => Some(lecture.slot),
        Finding::Stability(_, _, _) => None,
    }
}
