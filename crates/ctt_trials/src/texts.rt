//! The texts of the small instance, its timetables and a journal.

/// An instance of three courses: alg and geo are in one curriculum, and alg and top have one
/// teacher.
pub(crate) const SMALL: &str = "Name: Small
Courses: 3
Rooms: 2
Days: 2
Periods_per_day: 3
Curricula: 1
Constraints: 1
COURSES:
alg t1 2 2 30
geo t2 2 1 20
top t1 1 1 50
ROOMS:
A 25
B 40
CURRICULA:
q1 2 alg geo
UNAVAILABILITY_CONSTRAINTS:
geo 0 0
END.
";

/// The empty timetable of the small instance.
pub(crate) const NOTHING: &str = "";

/// A solution of the small instance.
pub(crate) const SOLUTION: &str = "alg A 0 0\nalg B 1 0\ngeo A 0 1\ngeo A 1 2\ntop B 0 2\n";

/// The lecture of top in the solution.
pub(crate) const TOP: &str = "top B 0 2\n";

/// The solution without top.
pub(crate) const WITHOUT_TOP: &str = "alg A 0 0\nalg B 1 0\ngeo A 0 1\ngeo A 1 2\n";

/// Two courses with one teacher, in one slot.
pub(crate) const CLASH: &str = "alg A 0 0\ntop B 0 0\n";

/// The journal of a draft on the solution without top, in which placing top is refused.
pub(crate) const JOURNAL: &str =
    "journal 1\nentry 0 1\nplace top A 0 1\nrefused roomtaken geo\nEND.\n";
