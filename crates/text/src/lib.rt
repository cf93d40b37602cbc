//! Texts: lines and their tokens, numbers in digits, and readers and writers: output is gathered
//! before it is written, and a reader or writer that has failed is not used again.
#![tactic(auto)]

pub mod buffer;
pub mod cutting;
pub mod digits;
pub mod output;
pub mod pieces;
pub mod watched;
pub mod words;
