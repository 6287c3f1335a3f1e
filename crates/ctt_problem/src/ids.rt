//! The numbers of courses, rooms, slots, teachers and curricula.

ghost use Rattle.std.specs.Prelude.{◌≡◌};

use std::marker::Model;

/// The number of a course, from 0 in the order of the instance.
#[derive(Clone, Copy, Debug, Default, PartialEq, Eq, PartialOrd, Ord, Hash)]
pub struct CourseNo(u16);

impl Model for CourseNo {
    ghost use Rattle.std.specs.Prelude.{ℕ};

    ghost Value = { ℕ };

    ghost view = { λ n. n.0 };

    ghost inverse = { λ n. record { 0 = n } };
}

impl CourseNo {
    /// Returns the course with this number.
    pub fn new(number: u16) -> Self
        ensures { result ≡ number }
    {
        CourseNo(number)
    }

    /// Returns the number.
    pub fn get(self) -> u16
        ensures { result ≡ self }
    {
        let CourseNo(number) = self;
        number
    }
}

/// The number of a room, from 0 in the order of the instance.
#[derive(Clone, Copy, Debug, Default, PartialEq, Eq, PartialOrd, Ord, Hash)]
pub struct RoomNo(u16);

impl Model for RoomNo {
    ghost use Rattle.std.specs.Prelude.{ℕ};

    ghost Value = { ℕ };

    ghost view = { λ n. n.0 };

    ghost inverse = { λ n. record { 0 = n } };
}

impl RoomNo {
    /// Returns the room with this number.
    pub fn new(number: u16) -> Self
        ensures { result ≡ number }
    {
        RoomNo(number)
    }

    /// Returns the number.
    pub fn get(self) -> u16
        ensures { result ≡ self }
    {
        let RoomNo(number) = self;
        number
    }
}

/// The number of a slot: the day times the number of periods per day, plus the period.
#[derive(Clone, Copy, Debug, Default, PartialEq, Eq, PartialOrd, Ord, Hash)]
pub struct SlotNo(u16);

impl Model for SlotNo {
    ghost use Rattle.std.specs.Prelude.{ℕ};

    ghost Value = { ℕ };

    ghost view = { λ n. n.0 };

    ghost inverse = { λ n. record { 0 = n } };
}

impl SlotNo {
    /// Returns the slot with this number.
    pub fn new(number: u16) -> Self
        ensures { result ≡ number }
    {
        SlotNo(number)
    }

    /// Returns the number.
    pub fn get(self) -> u16
        ensures { result ≡ self }
    {
        let SlotNo(number) = self;
        number
    }
}

/// The number of a teacher, from 0 in the order in which the courses name them.
#[derive(Clone, Copy, Debug, Default, PartialEq, Eq, PartialOrd, Ord, Hash)]
pub struct TeacherNo(u16);

impl Model for TeacherNo {
    ghost use Rattle.std.specs.Prelude.{ℕ};

    ghost Value = { ℕ };

    ghost view = { λ n. n.0 };

    ghost inverse = { λ n. record { 0 = n } };
}

impl TeacherNo {
    /// Returns the teacher with this number.
    pub fn new(number: u16) -> Self
        ensures { result ≡ number }
    {
        TeacherNo(number)
    }

    /// Returns the number.
    pub fn get(self) -> u16
        ensures { result ≡ self }
    {
        let TeacherNo(number) = self;
        number
    }
}

/// The number of a curriculum, from 0 in the order of the instance.
#[derive(Clone, Copy, Debug, Default, PartialEq, Eq, PartialOrd, Ord, Hash)]
pub struct CurriculumNo(u16);

impl Model for CurriculumNo {
    ghost use Rattle.std.specs.Prelude.{ℕ};

    ghost Value = { ℕ };

    ghost view = { λ n. n.0 };

    ghost inverse = { λ n. record { 0 = n } };
}

impl CurriculumNo {
    /// Returns the curriculum with this number.
    pub fn new(number: u16) -> Self
        ensures { result ≡ number }
    {
        CurriculumNo(number)
    }

    /// Returns the number.
    pub fn get(self) -> u16
        ensures { result ≡ self }
    {
        let CurriculumNo(number) = self;
        number
    }
}
