//! The commands of the program `wmax` that search for nothing: a result is checked, a lower bound
//! told, a formula printed. And what all commands share: what is asked for, the profile that is
//! taken, and why there is no answer.
#![tactic(auto)]

pub mod arguments;
pub mod checking;
pub mod encoding;
pub mod faults;
pub mod lower_bounds;
mod plain_encoding;
pub mod profiles;
