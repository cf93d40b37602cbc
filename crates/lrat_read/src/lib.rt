//! Lines of LRAT certificates (Cruz-Filipe, Heule, Hunt, Kaufmann and Schneider-Kamp 2017): what a
//! line says, read in one pass into buffers that are used again.
#![tactic(auto)]

pub mod batch;
pub mod blanks;
mod blocks;
pub mod facts;
pub mod line;
mod numbers;
mod plain;
pub mod reader;
pub mod types;
pub mod word_reader;
pub mod words;
