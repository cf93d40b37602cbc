//! What a run says: the lines that the program `wmax` prints, its exit statuses and its faults.
#![tactic(auto)]

pub mod answering;
pub mod best;
pub mod fault;
pub mod finding;
pub mod printing;
pub mod status;
pub mod told;
