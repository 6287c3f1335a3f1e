//! Parsing the members of one curriculum.

ghost use Rattle.std.specs.Prelude.{◌≡◌, [], ◌≤◌, ◌<◌, ◌==◌, length, OnOk};
ghost use Rattle.ctt_text.specs.Forms.{times};
ghost use Rattle.ctt_text.specs.InstancePlaces.{GivesRead, reads, member};
ghost use Rattle.ctt_problem.specs.Lists.{with_new};

use crate::fault::ReadFault;
use crate::instance::instance_words::read_course;
use crate::reader::Reader;
use ctt_problem::{CourseNo, Marks, Names};
use std::alloc::{AllocError, Global};
use std::marker::Model;

/// The members of a curriculum, each once, in the order in which they were first named.
#[derive(Drop)]
struct Members {
    list: Vec<CourseNo>,
    seen: Marks,
}

impl Model for Members {
    ghost use Rattle.std.specs.Prelude.{◌≡◌, ℕ, List, ◌==◌};
    ghost use Rattle.std.specs.List.{list_any};
    ghost use Rattle.ctt_problem.specs.Marks.{is_marked};

    ghost Value = { List ℕ };

    ghost view = { λ m. m.list.items };

    ghost invariant = { λ m. (n : ℕ) → is_marked m.seen n ≡ list_any (◌==◌ n) m.list.items };
}

impl Members {
    fn new(alloc: Global) -> Self
        ensures { result ≡ [] }
    {
        Members {
            list: Vec::new(alloc),
            seen: Marks::new(),
        }
    }

    /// Adds a course, unless it is a member already.
    fn add(&mut self, course: CourseNo) -> Result<(), AllocError>
        requires { course < 2000 }
        ensures { OnOk result (self.new ≡ with_new ◌==◌ self.old course) }
    {
        if !self.seen.is_marked(course.get() as usize) {
            self.list.push(course)?;
            self.seen.mark(course.get() as usize);
        }
        Ok(())
    }

    fn into_list(self) -> Vec<CourseNo>
        ensures { result.items ≡ self }
    {
        let Members { list, seen: _ } = self;
        list
    }
}

/// Parses one member, and adds it to those so far.
#[tactic(auto, using(crate::proofs::Steps::read_bind, crate::proofs::Steps::read_done), unfolding(crate::specs::InstancePlaces::member))]
fn read_member(reader: &mut Reader, courses: &Names, members: &mut Members) -> Result<(), ReadFault>
    requires { length courses.now ≤ 2000 }
    ensures { GivesRead (λ _. (members.new, reader.new)) result
        (reads (member courses.now members.old) reader.old) }
{
    let course = read_course(reader, courses)?;
    members.add(CourseNo::new(course as u16))?;
    Ok(())
}

/// Parses `count` members. A course that is named twice is stored once.
pub(crate) fn read_members(
    alloc: Global,
    reader: &mut Reader,
    courses: &Names,
    count: u32,
) -> Result<Vec<CourseNo>, ReadFault>
    requires { length courses.now ≤ 2000 }
    ensures { GivesRead (λ members. (members.items, reader.new)) result
        (reads (times (member courses.now) count []) reader.old) }
{
    let mut members = Members::new(alloc);
    for _ in 0..count {
        read_member(reader, courses, &mut members)?;
    }
    Ok(members.into_list())
}
