//! What is kept in a file and shown on standard error while a search runs: the best solution, and
//! how far the run is. The search ends where its time is over.
#![tactic(auto)]

pub mod alarm;
pub mod beginning;
pub mod file_id;
pub mod files;
pub mod keeper;
pub mod onlooker;
pub mod progress;
pub mod resumed_file;
pub mod standard_error;
pub mod standard_output;
pub mod whole_file;
