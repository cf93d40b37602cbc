//! A certificate of forms and cuts that an earlier run has left: it is judged before a search goes
//! on with it.
#![tactic(auto)]

pub mod earlier;
