//! The text formats of curriculum-based course timetabling: instances, solutions, barred rooms and
//! closures.
#![tactic(auto)]

mod entries;
mod fault;
mod fault_codes;
mod instance;
mod numbers;
mod places;
mod point;
mod reader;
mod sections;
mod shown;
mod side_points;
mod solution;
mod text_fault;
pub mod text_laws;
mod text_points;
mod word_parsers;
mod words;

pub use ctt_problem::{
    BitRows, Compact, CourseFacts, CourseNo, CurriculumNo, Instance, Marks, NoMemory, Placed,
    RoomNo, SlotNo, TeacherNo, add_to, drop_whole, empty_lists, is_before, is_timetable,
};
pub use fault::{BarredFault, BlockedFault, ReadFault, SolutionFault};
pub use instance::{read_barred, read_blocked, read_instance};
pub use numbers::number;
pub use places::{
    begins_char, count_chars, count_feeds, first_line, last_line, place_text, word_at, word_place,
};
pub use point::{about, byte_point, encoding_said, word_point};
pub use reader::Reader;
pub use solution::{read_solution, write_solution};
pub use text_fault::{TextFault, WordFault};
pub use word_parsers::{next_course, next_fixed, next_number, next_room, next_word};
pub use words::Words;
