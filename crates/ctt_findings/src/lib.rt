//! What a timetable breaks and costs: the report, and each finding by name.
#![tactic(auto)]

mod adding;
mod compactness;
mod conflicts;
mod contents;
mod courses;
mod csv_fields;
mod fact;
mod find;
mod finding;
pub mod finding_laws;
mod json_members;
mod json_report;
mod lectures;
mod lines;
mod objects;
mod occupancy;
mod report;
mod report_facts;
mod rows;
mod tables;

pub use csv_fields::{push_field, push_next_field};
pub use find::find_all;
pub use finding::{Cause, Finding};
pub use json_report::{explained_json, report_json};
pub use report::{explained_text, report_text};
pub use tables::{findings_csv, report_csv};
