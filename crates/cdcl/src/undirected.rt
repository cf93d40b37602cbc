// A guide that leaves all to the policy.
ghost use Rattle.std.specs.Prelude.{⊤};

use cdcl_search::guide::{Advice, Guide};
use cdcl_search::search::Search;
use std::alloc::AllocError;

/// Leaves each decision to the policy, and never stops a search.
#[derive(Drop)]
pub(crate) struct Undirected;

impl Guide for Undirected {
    ghost follows = { λ _ _. ⊤ };

    ghost may_stop = { ⊥ };

    fn advise(&mut self, _search: &Search) -> Result<Advice, AllocError> {
        Ok(Advice::Free)
    }
}
