//! What a person is shown of a text: a sheet that takes it piece by piece, with question marks for
//! what a terminal would obey, and how a faulty line can be mended.
#![tactic(auto)]

mod advice;
pub mod mending;
pub mod sheet;
pub mod showing;
