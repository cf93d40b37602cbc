// A search over what elimination has left of a formula.
ghost use Rattle.std.specs.Prelude.{◌≡◌, ◌+◌, ◌<◌, [], Some, map, length, All, IfOk, OnOk};
ghost use Rattle.cnf.specs.declared.limits.TheConstants.{VARIABLE_LIMIT};
ghost use Rattle.cnf.specs.Lrat.{IsId};
ghost use Rattle.lrat_log.specs.Log.{number_in};
ghost use Rattle.cdcl_search.specs.Starts.{AreAttachedBelow, AreWithin, IsLiveWithin, IsStarted};

use crate::search::{Search, memory_of};
use crate::subsets::Subsets;
use clauses::store::{MaybeCRef, Store};
use cnf::clause_list::ClauseList;
use propagate::engine::Engine;
use reconstruction::stack::Stack;
use std::alloc::AllocError;

/// A store of these clauses, in their order.
pub fn store_of(clauses: &ClauseList) -> Result<Store, AllocError>
    ensures { IfOk result (λ store. store.slots ≡ map Some clauses.now) }
{
    let mut store = Store::new(clauses.allocator());
    for clause in clauses.iter() {
        store.add(clause)?;
    }
    Ok(store)
}

/// Attaches the clause at this place, where it is live.
fn attach_at(engine: &mut Engine, store: &Store, place: usize) -> Result<(), AllocError>
    requires before { AreAttachedBelow engine.old store.now.slots engine.old.variables place }
    requires within { AreWithin store.now.slots engine.old.variables }
    ensures { OnOk result
        (AreAttachedBelow engine.new store.now.slots engine.old.variables (place + 1)) }
{
    match store.live_at(place) {
        Some(reference) => match engine.attach(store, reference) {
            Ok(()) => Ok(()),
            Err(_) => Err(AllocError),
        },
        None => Ok(()),
    }
}

/// An engine in which each clause of the store is attached.
fn engine_of(store: &Store, variables: u32) -> Result<Engine, AllocError>
    requires { AreWithin store.now.slots variables }
    ensures { IfOk result (λ e.
        AreAttachedBelow e store.now.slots variables (length store.now.slots)) }
{
    let mut engine = Engine::with_room(store.allocator(), variables, store)?;
    for place in 0..store.places() {
        match attach_at(&mut engine, store, place) {
            Ok(()) => {}
            Err(AllocError) => {
                // By a call: that is proved once, and not field by field here.
                drop(engine);
                return Err(AllocError);
            }
        }
    }
    Ok(engine)
}

/// A search at level 0 over a store. It takes the names out of the stack.
pub fn start(store: Store, stack: &mut Stack, additions: u64) -> Result<Search, AllocError>
    requires few { stack.old.variables < VARIABLE_LIMIT }
    requires long { length stack.old.names ≡ length store.slots }
    requires numbers { All (λ n. IsId (number_in n.1)) stack.old.names }
    requires live { All (λ n. IsLiveWithin store.slots stack.old.variables n.0) stack.old.names }
    ensures started { IfOk result (IsStarted store.slots stack.old additions) }
    ensures names { stack.new ≡ record stack.old { names = [] } }
{
    let mut search = search_beside(&store, stack, additions)?;
    search.store = store;
    Ok(search)
}

/// The search of `start`, but for its store, which is still empty: where memory is refused, no exit
/// has that to drop.
fn search_beside(store: &Store, stack: &mut Stack, additions: u64) -> Result<Search, AllocError>
    requires few { stack.old.variables < VARIABLE_LIMIT }
    requires long { length stack.old.names ≡ length store.now.slots }
    requires numbers { All (λ n. IsId (number_in n.1)) stack.old.names }
    requires live { All (λ n. IsLiveWithin store.now.slots stack.old.variables n.0)
        stack.old.names }
    ensures started { IfOk result (λ s.
        IsStarted store.now.slots stack.old additions (record s { store = store.now })) }
    ensures names { stack.new ≡ record stack.old { names = [] } }
{
    let alloc = store.allocator();
    let variables = stack.vars();
    let names = stack.take_names();
    let units = Vec::from_elem(alloc, MaybeCRef::new(None), variables as usize)?;
    let stamps = Vec::from_elem(alloc, 0, variables as usize)?;
    let (policy, analyzer) = memory_of(alloc, variables)?;
    // It has the most fields, so it comes last.
    let engine = match engine_of(store, variables) {
        Ok(engine) => engine,
        Err(AllocError) => {
            // By calls: that is proved once, and not field by field here.
            drop(policy);
            drop(analyzer);
            return Err(AllocError);
        }
    };
    Ok(Search {
        store: Store::new(alloc),
        engine,
        names,
        units,
        noted: 0,
        kept: additions,
        additions,
        stamps,
        policy,
        analyzer,
        subsets: Subsets::new(alloc),
    })
}
