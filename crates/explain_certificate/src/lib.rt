//! What a certificate of forms and cuts says to a person: why nothing is cheaper, and what it
//! holds.
#![tactic(auto)]

pub mod holdings;
mod meanings;
pub mod reasoning;
mod reasons;
