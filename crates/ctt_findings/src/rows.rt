//! The rows of all courses, each looked up once.

ghost use Rattle.std.specs.Prelude.{◌≡◌, IfOk};
ghost use Rattle.std.specs.List.{AllByRecursion as Each};
ghost use Rattle.ctt_problem.specs.Timetable.{IsTimetable, Fits, course_row};

use ctt_problem::{CourseNo, Instance, NoMemory, Placed};
use ctt_rules::course_row;
use std::alloc::Global;
use std::marker::Model;

/// A timetable, and the lectures of each course in it.
#[derive(Drop)]
pub(crate) struct Rows<'t> {
    timetable: &'t [Placed],
    rows: Vec<&'t [Placed]>,
}

impl<'t> Model for Rows<'t> {
    ghost use Rattle.std.specs.Prelude.{List};
    ghost use Rattle.ctt_problem.specs.declared.placed.Placed.{Placed as Lecture};
    ghost use Rattle.ctt_findings.specs.Rows.{AreRows};

    ghost Value = { List Lecture };

    ghost view = { λ r. r.timetable.now };

    ghost invariant = { λ r. AreRows r.timetable.now r.rows.items };
}

impl<'t> Rows<'t> {
    /// Looks up the rows of all courses in a timetable.
    pub(crate) fn of(
        alloc: Global,
        instance: &Instance,
        timetable: &'t [Placed],
    ) -> Result<Self, NoMemory>
        requires { IsTimetable instance.now timetable.now }
        ensures { IfOk result (λ rows. rows ≡ timetable.now) }
    {
        let mut rows: Vec<&[Placed]> = Vec::with_capacity(alloc, instance.courses() as usize)?;
        for number in 0..instance.courses() {
            rows.push(course_row(instance, timetable, CourseNo::new(number)))?;
        }
        Ok(Rows { timetable, rows })
    }

    /// Returns the lectures of a course. A course that the instance does not have has none.
    pub(crate) fn row(&self, instance: &Instance, course: CourseNo) -> &'t [Placed]
        requires { IsTimetable instance.now self.now }
        ensures row { result.now ≡ course_row course self.now }
        ensures fits { Each (Fits instance.now) result.now }
    {
        match self.rows.get(course.get() as usize) {
            Some(row) => row,
            None => course_row(instance, self.timetable, course),
        }
    }
}
