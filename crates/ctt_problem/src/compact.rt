//! An optional room or course in two bytes.

ghost use Rattle.std.specs.Prelude.{◌≡◌, ◌<◌, Some, None};
ghost use Rattle.ctt_problem.specs.RoomTable.{room_by_code};

use crate::ids::{CourseNo, RoomNo};
use std::marker::Model;

/// An optional room or course number in two bytes. An `Option` of either takes four bytes.
#[derive(Clone, Copy)]
pub struct Compact {
    /// 0 for none, otherwise the number of the room or course plus 1.
    code: u16,
}

impl Model for Compact {
    ghost use Rattle.std.specs.Prelude.{Option, ℕ};
    ghost use Rattle.ctt_problem.specs.RoomTable.{room_by_code, code_of_room, code_again};
    ghost use Rattle.std.proofs.Common.{ap};

    ghost Value = { Option ℕ };

    ghost view = { λ c. room_by_code c.code };

    ghost inverse = { λ o. record { code = code_of_room o } };

    ghost inverse_ok = { λ c _. ap (λ code. record { code = code }) (code_again c.code) };
}

impl Compact {
    /// Returns the value for neither a room nor a course.
    pub fn none() -> Self
        ensures { result ≡ None }
    {
        Compact { code: 0 }
    }

    /// Wraps a room. Its number must be below 65,535.
    pub fn of_room(room: RoomNo) -> Self
        requires { room < 65535 }
        ensures { result ≡ Some room }
    {
        Compact {
            code: room.get() + 1,
        }
    }

    /// Wraps a course. Its number must be below 65,535.
    pub fn of_course(course: CourseNo) -> Self
        requires { course < 65535 }
        ensures { result ≡ Some course }
    {
        Compact {
            code: course.get() + 1,
        }
    }

    /// Returns the room, if there is one.
    pub fn room(self) -> Option<RoomNo>
        ensures { result ≡ self }
    {
        if self.code == 0 {
            None
        } else {
            Some(RoomNo::new(self.code - 1))
        }
    }

    /// Returns the code: 0 for none, otherwise the number plus 1.
    pub fn code(self) -> u16
        ensures { self ≡ room_by_code result }
    {
        self.code
    }

    /// Returns the course, if there is one.
    pub fn course(self) -> Option<CourseNo>
        ensures { result ≡ self }
    {
        if self.code == 0 {
            None
        } else {
            Some(CourseNo::new(self.code - 1))
        }
    }
}
