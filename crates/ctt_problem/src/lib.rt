//! Instances of curriculum-based course timetabling, and their timetables.
#![tactic(auto)]

mod bit_rows;
mod compact;
mod course_facts;
mod fits;
mod ids;
mod instance;
mod letting;
mod marks;
mod names;
mod no_memory;
mod number_lists;
mod placed;
mod timetable;

pub use bit_rows::BitRows;
pub use compact::Compact;
pub use course_facts::CourseFacts;
pub use ids::{CourseNo, CurriculumNo, RoomNo, SlotNo, TeacherNo};
pub use instance::{Instance, Parts};
pub use letting::drop_whole;
pub use marks::Marks;
pub use names::Names;
pub use no_memory::NoMemory;
pub use number_lists::{add_to, empty_lists};
pub use placed::Placed;
pub use timetable::{is_before, is_timetable};
