//! Building an instance from its parts.

ghost use Rattle.std.specs.Prelude.{◌≡◌, IfOk, map};
ghost use Rattle.std.specs.String.{string_bytes};
ghost use Rattle.ctt_problem.specs.Problem.{IsProblem, course_count, room_count, slot_count};
ghost use Rattle.ctt_problem.specs.BitRows.{marks_of, HasSize};
ghost use Rattle.ctt_problem.specs.Named.{IsNamed};
ghost use Rattle.ctt_problem.specs.Instance.{AreClashes};
ghost use Rattle.ctt_problem.specs.Belonging.{AreCurricula};
ghost use Rattle.ctt_problem.specs.Taught.{AreTaught};
ghost use Rattle.ctt_problem.specs.Parts.{problem_by};

use crate::bit_rows::BitRows;
use crate::course_facts::CourseFacts;
use crate::ids::{CourseNo, CurriculumNo};
use crate::instance::Instance;
use crate::instance::belonging::belonging;
use crate::instance::clashes::clash_rows;
use crate::instance::taught::taught;
use crate::letting::drop_whole;
use crate::names::Names;
use std::alloc::{AllocError, Global};

/// The parts from which [`Instance::new`] builds an instance.
#[derive(Drop)]
pub struct Parts<'a> {
    pub name: &'a str,
    pub course_names: Names,
    pub courses: Vec<CourseFacts>,
    pub teacher_names: Names,
    pub room_names: Names,
    /// The number of seats in each room.
    pub capacities: Vec<u32>,
    pub curriculum_names: Names,
    /// The members of each curriculum.
    pub curricula: Vec<Vec<CourseNo>>,
    pub days: u16,
    /// The number of periods per day.
    pub periods: u16,
    /// For each course, the slots in which it is unavailable.
    pub unavailable: BitRows,
}

/// The fields of an instance that are not among its parts.
#[derive(Drop)]
struct Tables {
    name: String,
    closed: BitRows,
    barred: BitRows,
    blocked: BitRows,
    clashes: BitRows,
    belonging: Vec<Vec<CurriculumNo>>,
    taught: Vec<Vec<CourseNo>>,
}

impl<'a> Parts<'a> {
    /// Builds the instance from its parts and these tables.
    fn with_tables(self, tables: Tables) -> Instance
        requires problem { IsProblem (problem_by self) }
        requires named { IsNamed (problem_by self) }
        requires available { HasSize self.unavailable (course_count (problem_by self))
            (slot_count (problem_by self)) }
        requires name { string_bytes tables.name ≡ self.name.now }
        requires closed { HasSize tables.closed (course_count (problem_by self))
            (slot_count (problem_by self)) }
        requires none_closed { marks_of tables.closed ≡ (problem_by self).closed }
        requires barred { HasSize tables.barred (course_count (problem_by self))
            (room_count (problem_by self)) }
        requires none_barred { marks_of tables.barred ≡ (problem_by self).barred }
        requires blocked { HasSize tables.blocked (room_count (problem_by self))
            (slot_count (problem_by self)) }
        requires none_blocked { marks_of tables.blocked ≡ (problem_by self).blocked }
        requires clashes { AreClashes (problem_by self) tables.clashes }
        requires belonging { AreCurricula (problem_by self)
            (map (λ q. q.items) tables.belonging.items) }
        requires taught { AreTaught (problem_by self) (map (λ q. q.items) tables.taught.items) }
        ensures { result ≡ problem_by self.entry }
    {
        let Parts {
            name: _,
            course_names,
            courses,
            teacher_names,
            room_names,
            capacities,
            curriculum_names,
            curricula,
            days,
            periods,
            unavailable,
        } = self;
        Instance {
            name: tables.name,
            course_names,
            courses,
            teacher_names,
            room_names,
            capacities,
            curriculum_names,
            curricula,
            days,
            periods,
            unavailable,
            closed: tables.closed,
            barred: tables.barred,
            blocked: tables.blocked,
            clashes: tables.clashes,
            belonging: tables.belonging,
            taught: tables.taught,
        }
    }

    /// Returns a table in which no course is closed in a slot.
    #[tactic(auto, using(crate::proofs::BitRowLemmas::marks_none))]
    fn closed(&self, alloc: Global) -> Result<BitRows, AllocError>
        requires problem { IsProblem (problem_by self.now) }
        ensures size { IfOk result (λ table.
            HasSize table (course_count (problem_by self.now))
            (slot_count (problem_by self.now))) }
        ensures none { IfOk result (λ table. marks_of table ≡ (problem_by self.now).closed) }
    {
        let slots = self.days * self.periods;
        let table = BitRows::new(alloc, self.courses.len(), slots as usize)?;
        Ok(table)
    }

    /// Returns a table in which no room is barred.
    #[tactic(auto, using(crate::proofs::BitRowLemmas::marks_none))]
    fn barred(&self, alloc: Global) -> Result<BitRows, AllocError>
        requires problem { IsProblem (problem_by self.now) }
        ensures size { IfOk result (λ table.
            HasSize table (course_count (problem_by self.now))
            (room_count (problem_by self.now))) }
        ensures none { IfOk result (λ table. marks_of table ≡ (problem_by self.now).barred) }
    {
        let table = BitRows::new(alloc, self.courses.len(), self.capacities.len())?;
        Ok(table)
    }

    /// Returns a table in which no room is blocked in a slot.
    #[tactic(auto, using(crate::proofs::BitRowLemmas::marks_none))]
    fn blocked(&self, alloc: Global) -> Result<BitRows, AllocError>
        requires problem { IsProblem (problem_by self.now) }
        ensures size { IfOk result (λ table.
            HasSize table (room_count (problem_by self.now))
            (slot_count (problem_by self.now))) }
        ensures none { IfOk result (λ table. marks_of table ≡ (problem_by self.now).blocked) }
    {
        let slots = self.days * self.periods;
        let table = BitRows::new(alloc, self.capacities.len(), slots as usize)?;
        Ok(table)
    }

    /// Returns for each course the courses that it clashes with.
    fn clashes(&self, alloc: Global, taught: &[Vec<CourseNo>]) -> Result<BitRows, AllocError>
        requires problem { IsProblem (problem_by self.now) }
        requires taught { AreTaught (problem_by self.now) (map (λ q. q.items) taught.now) }
        ensures { IfOk result (AreClashes (problem_by self.now)) }
    {
        let courses = self.courses.len();
        let rows = clash_rows(alloc, courses, taught, &self.curricula)?;
        Ok(rows)
    }

    /// Returns the curricula of each course.
    fn belonging(&self, alloc: Global) -> Result<Vec<Vec<CurriculumNo>>, AllocError>
        requires problem { IsProblem (problem_by self.now) }
        ensures { IfOk result (λ lists.
            AreCurricula (problem_by self.now) (map (λ q. q.items) lists.items)) }
    {
        let lists = belonging(alloc, &self.courses, &self.curricula)?;
        Ok(lists)
    }

    /// Returns the courses of each teacher.
    fn taught(&self, alloc: Global) -> Result<Vec<Vec<CourseNo>>, AllocError>
        requires problem { IsProblem (problem_by self.now) }
        ensures { IfOk result (λ lists.
            AreTaught (problem_by self.now) (map (λ q. q.items) lists.items)) }
    {
        let teachers = self.teacher_names.len();
        let lists = taught(alloc, &self.courses, teachers)?;
        Ok(lists)
    }

    /// Builds the fields that are not among the parts. The parts are borrowed, so that they are not
    /// dropped here if memory runs out.
    fn tables(&self, alloc: Global) -> Result<Tables, AllocError>
        requires problem { IsProblem (problem_by self.now) }
        ensures name { IfOk result (λ t. string_bytes t.name ≡ self.now.name.now) }
        ensures closed { IfOk result (λ t.
            HasSize t.closed (course_count (problem_by self.now))
            (slot_count (problem_by self.now))) }
        ensures none_closed { IfOk result (λ t. marks_of t.closed ≡ (problem_by self.now).closed) }
        ensures barred { IfOk result (λ t.
            HasSize t.barred (course_count (problem_by self.now))
            (room_count (problem_by self.now))) }
        ensures none_barred { IfOk result (λ t. marks_of t.barred ≡ (problem_by self.now).barred) }
        ensures blocked { IfOk result (λ t.
            HasSize t.blocked (room_count (problem_by self.now))
            (slot_count (problem_by self.now))) }
        ensures none_blocked { IfOk result (λ t.
            marks_of t.blocked ≡ (problem_by self.now).blocked) }
        ensures clashes { IfOk result (λ t. AreClashes (problem_by self.now) t.clashes) }
        ensures belonging { IfOk result (λ t.
            AreCurricula (problem_by self.now) (map (λ q. q.items) t.belonging.items)) }
        ensures taught { IfOk result (λ t.
            AreTaught (problem_by self.now) (map (λ q. q.items) t.taught.items)) }
    {
        let closed = self.closed(alloc)?;
        let barred = self.barred(alloc)?;
        let blocked = self.blocked(alloc)?;
        let belonging = self.belonging(alloc)?;
        let taught = self.taught(alloc)?;
        let clashes = self.clashes(alloc, &taught)?;
        let name = String::from_str(alloc, self.name)?;
        Ok(Tables {
            name,
            closed,
            barred,
            blocked,
            clashes,
            belonging,
            taught,
        })
    }
}

impl Instance {
    /// Builds an instance from its parts. Fails if memory runs out.
    pub fn new(alloc: Global, parts: Parts) -> Result<Self, AllocError>
        requires problem { IsProblem (problem_by parts) }
        requires named { IsNamed (problem_by parts) }
        requires available { HasSize parts.unavailable (course_count (problem_by parts))
            (slot_count (problem_by parts)) }
        ensures { IfOk result (λ i. i ≡ problem_by parts.entry) }
    {
        match parts.tables(alloc) {
            Ok(tables) => Ok(parts.with_tables(tables)),
            Err(error) => {
                drop_whole(parts);
                Err(error)
            }
        }
    }
}
