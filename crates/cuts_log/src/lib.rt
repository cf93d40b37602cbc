//! The log of a search by forms and cuts. It is written as a certificate while it grows, and takes
//! no line that the checker would refuse.
#![tactic(auto)]

mod book;
mod earlier;
mod events;
mod given;
pub mod law;
pub mod log;
mod out;
mod spelling;
mod standing;
mod trace;
