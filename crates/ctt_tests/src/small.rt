//! The small instance, other texts of it, and lectures.

use crate::stopped::Stopped;
use ctt_text::{CourseNo, Instance, Placed, RoomNo, SlotNo, read_instance};
use std::alloc::Global;

/// Three courses: alg and geo are in one curriculum, and alg and top have one teacher.
const SMALL: &str = "Name: Small
Courses: 3
Rooms: 2
Days: 2
Periods_per_day: 3
Curricula: 1
Constraints: 1
COURSES:
alg t1 2 2 30
geo t2 2 1 20
top t1 1 1 50
ROOMS:
A 25
B 40
CURRICULA:
q1 2 alg geo
UNAVAILABILITY_CONSTRAINTS:
geo 0 0
END.
";

/// The same with tabs, carriage returns, empty lines, zeros before numbers, and text after its end.
pub(crate) const SMALL_SPACED: &str = "Name:\tSmall\r\n
Courses:\t0003\r\n
Rooms:\t2\r\n
Days:\t2\r\n
Periods_per_day:\t3\r\n
Curricula:\t1\r\n
Constraints:\t1\r\n
COURSES:\r\n
alg  t1  02  2  30\r\n
geo  t2  2  1  20\r\n
top  t1  1  1  50\r\n
ROOMS:\r\n
A  0025\r\n
B  40\r\n
CURRICULA:\r\n
q1  2  alg  geo\r\n
UNAVAILABILITY_CONSTRAINTS:\r\n
geo  0  0\r\n
END. and more
";

/// The same, but geo is unavailable in another slot.
pub(crate) const SMALL_LATER: &str = "Name: Small
Courses: 3
Rooms: 2
Days: 2
Periods_per_day: 3
Curricula: 1
Constraints: 1
COURSES:
alg t1 2 2 30
geo t2 2 1 20
top t1 1 1 50
ROOMS:
A 25
B 40
CURRICULA:
q1 2 alg geo
UNAVAILABILITY_CONSTRAINTS:
geo 0 1
END.
";

/// Parses the small instance.
pub(crate) fn small_instance(alloc: Global) -> Result<Instance, Stopped> {
    read_instance(alloc, SMALL.as_bytes()).or(Err(Stopped::TextRefused))
}

/// Returns geo in slot 1 in room A.
pub(crate) fn geo_second() -> Placed {
    Placed {
        course: CourseNo::new(1),
        slot: SlotNo::new(1),
        room: RoomNo::new(0),
    }
}

/// Returns top in slot 2 in room B.
pub(crate) fn top_third() -> Placed {
    Placed {
        course: CourseNo::new(2),
        slot: SlotNo::new(2),
        room: RoomNo::new(1),
    }
}

/// Returns alg in slot 0 in room A.
pub(crate) fn alg_first() -> Placed {
    Placed {
        course: CourseNo::new(0),
        slot: SlotNo::new(0),
        room: RoomNo::new(0),
    }
}

/// Returns top in slot 0 in room B, where it clashes with alg.
pub(crate) fn top_first() -> Placed {
    Placed {
        course: CourseNo::new(2),
        slot: SlotNo::new(0),
        room: RoomNo::new(1),
    }
}
