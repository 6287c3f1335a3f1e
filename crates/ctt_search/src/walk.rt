//! What a search carries from step to step. Nothing that it proposes rests on this.

ghost use Rattle.ctt_problem.specs.BitRows.{HasSize};
ghost use Rattle.ctt_problem.specs.Problem.{course_count, slot_count};

use crate::aim::Aim;
use crate::draws::Draws;
use crate::held::Held;
use crate::looking::is_short;
use crate::wish::Wish;
use ctt_board::Sheet;
use ctt_problem::{CourseNo, NoMemory};
use std::alloc::Global;

/// What a missing lecture weighs, in points of the penalty.
pub(crate) const MISSING: i64 = 40;

/// The temperature at the start, in 65,536ths of a point.
const HOT: u32 = 327680;

/// In how many levels the temperature falls.
const LEVELS: u64 = 512;

/// For each k, the negative natural logarithm of (k + 1/2) / 256, in 1,024ths.
const LOGARITHMS: [u16; 256] = [
    6388, 5263, 4740, 4395, 4138, 3933, 3762, 3615, 3487, 3373, 3270, 3177, 3092, 3013, 2940, 2872,
    2808, 2747, 2690, 2637, 2585, 2537, 2490, 2445, 2403, 2362, 2322, 2285, 2248, 2213, 2179, 2145,
    2113, 2082, 2052, 2023, 1995, 1967, 1940, 1914, 1888, 1863, 1839, 1815, 1792, 1769, 1747, 1725,
    1704, 1683, 1662, 1642, 1622, 1603, 1584, 1565, 1547, 1529, 1512, 1494, 1477, 1460, 1444, 1428,
    1412, 1396, 1380, 1365, 1350, 1335, 1321, 1306, 1292, 1278, 1264, 1250, 1237, 1224, 1210, 1197,
    1185, 1172, 1160, 1147, 1135, 1123, 1111, 1099, 1088, 1076, 1065, 1054, 1042, 1031, 1020, 1010,
    999, 988, 978, 968, 957, 947, 937, 927, 917, 908, 898, 889, 879, 870, 860, 851, 842, 833, 824,
    815, 806, 797, 789, 780, 772, 763, 755, 746, 738, 730, 722, 714, 706, 698, 690, 682, 674, 667,
    659, 651, 644, 636, 629, 622, 614, 607, 600, 593, 586, 579, 572, 565, 558, 551, 544, 537, 530,
    524, 517, 510, 504, 497, 491, 484, 478, 472, 465, 459, 453, 447, 441, 434, 428, 422, 416, 410,
    404, 398, 392, 387, 381, 375, 369, 364, 358, 352, 347, 341, 335, 330, 324, 319, 313, 308, 303,
    297, 292, 287, 281, 276, 271, 266, 260, 255, 250, 245, 240, 235, 230, 225, 220, 215, 210, 205,
    200, 196, 191, 186, 181, 176, 172, 167, 162, 158, 153, 148, 144, 139, 134, 130, 125, 121, 116,
    112, 107, 103, 99, 94, 90, 85, 81, 77, 73, 68, 64, 60, 55, 51, 47, 43, 39, 35, 30, 26, 22, 18,
    14, 10, 6, 2,
];

/// Where a search stands.
#[derive(Drop)]
pub(crate) struct Walk {
    /// Its random numbers.
    pub(crate) draws: Draws,
    /// The lectures that it leaves where they stand.
    pub(crate) held: Held,
    /// The courses of which lectures were missing when it last looked.
    pub(crate) short: Vec<CourseNo>,
    /// What a change weighs, in points of the penalty.
    pub(crate) price: i64,
    /// How many lectures it may change.
    pub(crate) most: i64,
    /// How many lectures it has changed.
    pub(crate) changes: i64,
    /// What it has gained, in points of the penalty.
    gain: i64,
    /// The most that it had gained when it last looked.
    best: i64,
    heat: u32,
    level: u64,
    left: u64,
}

/// Returns what a change weighs to a search with this aim.
fn price_of(aim: Aim) -> i64 {
    match aim {
        Aim::Cost(price) => i64::from(price),
        Aim::Changes => MISSING / 2,
    }
}

/// Returns how many lectures a search may change.
fn most_of(most: Option<u32>) -> i64 {
    match most {
        None => i64::MAX,
        Some(most) => i64::from(most),
    }
}

impl Walk {
    /// Returns where a search begins.
    pub(crate) fn new<'i, S: Sheet<'i>>(
        start: &S,
        aim: Aim,
        wish: &Wish,
        alloc: Global,
    ) -> Result<Self, NoMemory>
        requires { HasSize wish.now.pins (slot_count (S.problem start.now))
            (course_count (S.problem start.now)) }
    {
        let held = Held::of(start, &wish.pins, alloc)?;
        Ok(Walk {
            draws: Draws::new(wish.seed),
            held,
            short: Vec::new(alloc),
            price: price_of(aim),
            most: most_of(wish.most_changes),
            changes: 0,
            gain: 0,
            best: 0,
            heat: HOT,
            level: wish.steps / LEVELS,
            left: wish.steps / LEVELS,
        })
    }

    /// Lets the temperature fall a little, once a level.
    pub(crate) fn cool(&mut self) {
        if self.left > 0 {
            self.left -= 1;
            return;
        }
        self.left = self.level;
        self.heat = self.heat.saturating_sub(self.heat / 137);
    }

    /// Draws how much more a change may weigh.
    pub(crate) fn limit(&mut self) -> i64 {
        let place = (self.draws.word() % 256) as usize;
        let heat = u64::from(self.heat).saturating_mul(u64::from(LOGARITHMS[place]));
        (heat / 67108864) as i64
    }

    /// Counts a change that was made, given what it weighs and how many lectures it changes.
    pub(crate) fn count(&mut self, weight: i64, changed: i64) {
        self.gain = self.gain.saturating_sub(weight);
        self.changes = self.changes.saturating_add(changed);
    }

    /// Returns whether it has gained more than when it last looked.
    pub(crate) fn has_gained(&mut self) -> bool {
        let more = self.gain > self.best;
        if more {
            self.best = self.gain;
        }
        more
    }

    /// Looks for the courses of which lectures are missing.
    pub(crate) fn look<'i, S: Sheet<'i>>(&mut self, sheet: &S) -> Result<(), NoMemory> {
        self.short.clear();
        list_short(sheet, &mut self.short)
    }
}

/// Appends the courses of which lectures are missing.
fn list_short<'i, S: Sheet<'i>>(sheet: &S, short: &mut Vec<CourseNo>) -> Result<(), NoMemory> {
    for number in 0..sheet.instance().courses() {
        let course = CourseNo::new(number);
        if is_short(sheet, course) {
            short.push(course)?;
        }
    }
    Ok(())
}
