//! Files in memory.

ghost use Rattle.std.specs.Prelude.{None};

use crate::buffer::Buffer;
use ctt_files::{Device, Failed, Files, put_all};

/// An instance of three courses: alg and geo are in one curriculum, and alg and top have one
/// teacher.
const SMALL: &str = "Name: Small
Courses: 3
Rooms: 2
Days: 2
Periods_per_day: 3
Curricula: 1
Constraints: 1
COURSES:
alg t1 2 2 30
geo t2 2 1 20
top t1 1 1 50
ROOMS:
A 25
B 40
CURRICULA:
q1 2 alg geo
UNAVAILABILITY_CONSTRAINTS:
geo 0 0
END.
";

/// The files, each with its name and its text.
const FILES: &[(&str, &str)] = &[
    ("small.ctt", SMALL),
    ("cut.ctt", "Name: Small Courses: 3 Rooms: 2 Days: 2"),
    (
        "s.sol",
        "alg A 0 0\nalg B 1 0\ngeo A 0 1\ngeo A 1 2\ntop B 0 2\n",
    ),
    ("part.sol", "alg A 0 0\nalg B 1 0\n"),
    ("clash.sol", "alg A 0 0\ntop B 0 0\n"),
    ("word.sol", "alg A 0 0\nalg B one 0\n"),
    ("ok.barred", "Barred: 1\ntop A\nEND.\n"),
    ("room.barred", "Barred: 1\ntop C\nEND.\n"),
    (
        "ok.blocked",
        "Blocked: 2\nroom A 0 0\nteacher t1 1 *\nEND.\n",
    ),
    ("room.blocked", "Blocked: 1\nroom C x 9\nEND.\n"),
    ("no.blocked", "Blocked: 0\nEND.\n"),
    ("script", "1 open\n1 place top B 0 2\n1 commit\n"),
    (
        "agrees.journal",
        "journal 1\nentry 0 1\nplace top B 0 2\ndone\nEND.\n",
    ),
    (
        "differs.journal",
        "journal 1\nentry 0 1\nplace top B 0 2\nrefused roomtaken geo\nEND.\n",
    ),
    ("cut.journal", "journal 1\nentry 0 1\n"),
    (
        "torn.minutes",
        "entry 1 1\nplace top B 0 2\ndone\nentry 1 1\nplace",
    ),
];

/// The files, one of which can be stored.
#[derive(Drop)]
pub(crate) struct MemoryFiles<'a> {
    stored: &'a mut Buffer,
}

impl<'a> MemoryFiles<'a> {
    /// Returns the files. The one that is stored is written to `stored`.
    pub(crate) fn new(stored: &'a mut Buffer) -> Self {
        MemoryFiles { stored }
    }
}

impl<'a> Files for MemoryFiles<'a> {
    type Input = Device<&'static [u8]>;

    ghost held = { λ _ _. None };

    fn fetch(&mut self, name: &str) -> Result<Device<&'static [u8]>, Failed> {
        for (other, text) in FILES {
            if *other == name {
                return Ok(Device::new(text.as_bytes()));
            }
        }
        Err(Failed)
    }

    fn store(&mut self, name: &str, bytes: &[u8]) -> Result<(), Failed> {
        put_all(self.stored, name.as_bytes())?;
        put_all(self.stored, b":\n")?;
        put_all(self.stored, bytes)
    }
}
