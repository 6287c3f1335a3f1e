//! Courses with missing lectures.

ghost use Rattle.std.specs.Prelude.{◌≡◌, ◌↔◌, IfOk, IsTrue};
ghost use Rattle.ctt_edits.specs.Fitting.{ShortfallFits};

use ctt_problem::{CourseNo, Instance, NoMemory};
use std::marker::Model;

/// A course with missing lectures.
#[derive(Clone, Copy, PartialEq, Eq)]
pub struct Shortfall {
    /// The course.
    pub course: CourseNo,
    /// How many of its lectures are not placed.
    pub missing: u32,
}

impl Shortfall {
    /// Returns whether its course is one of the instance, and at most 999,999,999 lectures are
    /// missing.
    pub fn fits(&self, instance: &Instance) -> bool
        ensures { IsTrue result ↔ ShortfallFits instance.now self.now }
    {
        self.course.fits(instance) && self.missing <= 999_999_999
    }
}

/// A list of courses with missing lectures; contracts see the list.
pub struct Shortfalls {
    list: Vec<Shortfall>,
}

// Written by hand because a derived `Drop` is proved again in each dependent crate.
impl Drop for Shortfalls {
    fn drop(self) {
        let Shortfalls { list: _ } = self;
    }
}

impl Model for Shortfalls {
    ghost use Rattle.std.specs.Prelude.{List};
    ghost use Rattle.ctt_edits.specs.declared.shortfall.Shortfall.{Shortfall};

    ghost Value = { List Shortfall };

    ghost view = { λ s. s.list.items };
}

impl Shortfalls {
    /// Returns the courses of a list.
    pub fn new(list: Vec<Shortfall>) -> Self
        ensures { result ≡ list.items }
    {
        Shortfalls { list }
    }

    /// Returns the list.
    pub fn as_slice(&self) -> &[Shortfall]
        ensures { result.now ≡ self.now }
    {
        self.list.as_slice()
    }

    /// Returns the list itself. Takes no memory.
    pub fn into_vec(self) -> Vec<Shortfall>
        ensures { result.items ≡ self }
    {
        let Shortfalls { list } = self;
        list
    }

    /// Returns an equal list.
    pub(crate) fn copy(&self) -> Result<Self, NoMemory>
        ensures { IfOk result (λ courses. courses ≡ self.now) }
    {
        let list = self.list.as_slice().to_vec(*self.list.allocator())?;
        Ok(Shortfalls { list })
    }

    /// Returns whether the courses are equal, and as many lectures of each are missing.
    pub(crate) fn is_same(&self, other: &Shortfalls) -> bool
        ensures { IsTrue result ↔ (self.now ≡ other.now) }
    {
        self.list.as_slice() == other.list.as_slice()
    }
}
