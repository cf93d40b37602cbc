// Recursive minimisation: a literal is redundant where its reason's literals are of level 0, stand
// in the clause, were resolved, or are redundant in their turn.
//
// It has two halves. `find_redundant` only looks. From a literal of the clause it goes back over
// the reasons along one path at a time. A variable that has no reason, or stands on the trail
// before all literals of its level in the clause, is not redundant, and neither is then what led to
// it. What the path leaves is known from then on, so that no reason is read twice, with no
// recursion and no search of the trail. Nothing rests on what it finds: `drop_redundant` resolves
// it by its reasons, as any literal of a conflict is, so that the hints are just the reasons that
// were used. It takes what was found last first, as a variable is found redundant after those of
// its reason.
ghost use Rattle.std.specs.Prelude.{◌≡◌, ◌<◌, ◌≤◌, length};
ghost use Rattle.analyze.specs.Marks.{HasMarks, FitsMarks};
ghost use Rattle.analyze.specs.Met.{CanMinimise, ReducesToOne, AreVariables};

use crate::marks::{Mark, Marking, resolve_one};
use crate::positions::put;
use clauses::store::Store;
use cnf::types::Lit;
use propagate::engine::Engine;
use std::alloc::{AllocError, Global};

/// What a search for redundant literals knows of a variable.
#[derive(Clone, Copy, Debug, PartialEq, Eq, Drop)]
pub enum Idea {
    /// Nothing yet.
    Unknown,
    /// It is not redundant.
    Needed,
    /// It is redundant.
    Redundant,
}

/// A variable on the path over the reasons.
#[derive(Clone, Copy, Debug, PartialEq, Eq, Drop)]
pub struct Step {
    // The variable.
    variable: u32,
    // The place in its reason of the first literal that was not looked at.
    next: usize,
}

/// Where a path over the reasons goes from a variable.
#[derive(Clone, Copy, Debug, PartialEq, Eq, Drop)]
pub enum Way {
    /// On to this variable of its reason, which stands before this place.
    Into(u32, usize),
    /// Back, since the variable is redundant.
    Redundant,
    /// To an end, since it is not.
    Needed,
}

/// No literal of the level stands in the clause.
const NOWHERE: u32 = u32::MAX;

/// What a minimisation knows, with memory that it keeps between calls.
#[derive(Drop)]
pub(crate) struct Minimiser {
    // By variable, from 0, which no literal has: what is known of it; all unknown between calls.
    ideas: Vec<Idea>,
    // By level, from 0: the least position on the trail of a literal of it in the clause, and
    // `NOWHERE` where the clause has none; nowhere for all between calls.
    firsts: Vec<u32>,
    // The path over the reasons, from a variable of the clause on: none is on it twice, and each
    // but the first stands in the reason of the one before. It has room for all variables.
    path: Vec<Step>,
    // The variables that are known to be redundant or not, each once, a redundant one after those
    // of its reason; none between calls. It has room for all variables.
    settled: Vec<u32>,
}

/// Notes what is known of a variable.
fn note(ideas: &mut [Idea], variable: u32, idea: Idea) {
    if let Some(entry) = ideas.get_mut(variable as usize) {
        *entry = idea;
    }
}

/// The variable at a position of the trail; 0, which no literal has, past its end.
pub(crate) fn variable_of(engine: &Engine, position: u32) -> u32
    ensures { result ≤ engine.now.variables }
{
    match engine.trail().get(position as usize) {
        Some(lit) => lit.variable().min(engine.variables()),
        None => 0,
    }
}

/// The level of a variable, and 0 where it has no value.
fn level_of(engine: &Engine, variable: u32) -> u32
    requires { variable ≤ engine.now.variables }
{
    engine.level(variable).unwrap_or(0)
}

impl Minimiser {
    /// For engines that have fewer variables than this.
    ///
    /// # Errors
    ///
    /// `AllocError` where memory was refused.
    pub(crate) fn new(alloc: Global, count: usize) -> Result<Self, AllocError> {
        let ideas = Vec::from_elem(alloc, Idea::Unknown, count)?;
        let firsts = Vec::from_elem(alloc, NOWHERE, count)?;
        let path = Vec::with_capacity(alloc, count)?;
        let settled = Vec::with_capacity(alloc, count)?;
        Ok(Minimiser {
            ideas,
            firsts,
            path,
            settled,
        })
    }

    /// Drops the redundant literals. It lists the variables that stood in the clause.
    pub(crate) fn minimise(
        &mut self,
        engine: &Engine,
        store: &Store,
        asserting: Lit,
        marking: &mut Marking,
    )
        requires { CanMinimise engine.now store.now.slots marking.old asserting }
        ensures { ReducesToOne engine.now store.now.slots marking.old marking.new asserting }
    {
        self.start(engine, asserting, marking);
        for variable in marking.list.iter() {
            self.find_redundant(engine, store, *variable, &marking.marks);
        }
        self.forget_firsts(engine, &marking.list);
        self.drop_redundant(engine, store, asserting, marking);
    }

    /// Adds to the list the variables of the reasons of these literals, each once, but for such as
    /// were met and such of level 0.
    pub(crate) fn meet_reasons(
        &mut self,
        engine: &Engine,
        store: &Store,
        lits: &[Lit],
        marking: &mut Marking,
    )
        requires fits { FitsMarks engine.now store.now.slots marking.old.marks.items }
        requires named { AreVariables marking.old.marks.items marking.old.list.items }
        ensures named { AreVariables marking.old.marks.items marking.new.list.items }
        ensures rest { marking.new ≡ record marking.old { list = marking.new.list } }
    {
        let marks: &[Mark] = &marking.marks;
        let list = &mut marking.list;
        for lit in lits {
            let variable = lit.variable().min(engine.variables());
            if let Some(reason) = engine.reason(variable) {
                let lits = store.lits(reason);
                self.take_in(engine, lits, marks, list);
            }
        }
        for variable in list.iter() {
            note(&mut self.ideas, *variable, Idea::Unknown);
        }
    }

    /// What is known of a variable.
    fn idea_of(&self, variable: u32) -> Idea {
        match self.ideas.get(variable as usize) {
            Some(idea) => *idea,
            None => Idea::Unknown,
        }
    }

    /// Lists what is kept, but for the asserting literal, and notes for each level where the first
    /// literal of it stands.
    fn start(&mut self, engine: &Engine, asserting: Lit, marking: &mut Marking)
        requires { engine.now.variables < length marking.old.marks.items }
        ensures { marking.new ≡ record marking.old { list = marking.new.list } }
    {
        let marks: &[Mark] = &marking.marks;
        let list = &mut marking.list;
        list.clear();
        for position in marking.met.iter() {
            let variable = variable_of(engine, *position);
            if marks[variable as usize] == Mark::Kept && variable != asserting.variable() {
                put(list, variable);
                if let Some(first) = self.firsts.get_mut(level_of(engine, variable) as usize) {
                    *first = (*first).min(*position);
                }
            }
        }
    }

    /// Takes away what was noted of the levels of these variables.
    fn forget_firsts(&mut self, engine: &Engine, variables: &[u32]) {
        for variable in variables {
            let level = level_of(engine, (*variable).min(engine.variables()));
            if let Some(first) = self.firsts.get_mut(level as usize) {
                *first = NOWHERE;
            }
        }
    }

    /// Whether a variable of this level above 0 may be redundant.
    fn may_follow(&self, engine: &Engine, variable: u32, level: u32) -> bool
        requires { variable ≤ engine.now.variables }
    {
        match (self.firsts.get(level as usize), engine.position(variable)) {
            (Some(first), Some(position)) => *first < position && engine.reason(variable).is_some(),
            _ => false,
        }
    }

    /// What is known of a variable that is not marked, or can be told at once.
    fn idea_now(&self, engine: &Engine, variable: u32) -> Idea
        requires { variable ≤ engine.now.variables }
    {
        let known = self.idea_of(variable);
        if known != Idea::Unknown {
            return known;
        }
        let level = level_of(engine, variable);
        if level == 0 {
            return Idea::Redundant;
        }
        if self.may_follow(engine, variable, level) {
            Idea::Unknown
        } else {
            Idea::Needed
        }
    }

    /// Looks at the literals of a variable's reason, from the next one on.
    fn look(&self, engine: &Engine, lits: &[Lit], step: Step, marks: &[Mark]) -> Way
        requires { HasMarks engine.now marks.now lits.now }
    {
        for at in step.next..lits.len() {
            let other = lits[at].variable();
            if marks[other as usize] == Mark::Clear && other != step.variable {
                match self.idea_now(engine, other) {
                    Idea::Unknown => return Way::Into(other, at + 1),
                    Idea::Needed => return Way::Needed,
                    Idea::Redundant => {}
                }
            }
        }
        Way::Redundant
    }

    /// Where the path goes on from a variable.
    fn go_on(&self, engine: &Engine, store: &Store, step: Step, marks: &[Mark]) -> Way
        requires { FitsMarks engine.now store.now.slots marks.now }
    {
        let variable = step.variable.min(engine.variables());
        match engine.reason(variable) {
            Some(reason) => self.look(engine, store.lits(reason), step, marks),
            None => Way::Needed,
        }
    }

    /// Notes what was found of a variable, and lists it.
    fn settle(&mut self, variable: u32, idea: Idea)
        ensures { self.new.path ≡ self.old.path }
    {
        note(&mut self.ideas, variable, idea);
        put(&mut self.settled, variable);
    }

    /// Finds out whether a variable is redundant, and what it takes to know it.
    fn find_redundant(&mut self, engine: &Engine, store: &Store, variable: u32, marks: &[Mark])
        requires { FitsMarks engine.now store.now.slots marks.now }
    {
        self.path.clear();
        let mut step = Step { variable, next: 0 };
        // Each variable comes to the path once, and leaves it once.
        for _ in 0..engine.assigned().saturating_mul(2) {
            match self.go_on(engine, store, step, marks) {
                Way::Into(other, next) => {
                    if self.path.len() < self.path.capacity() {
                        self.path.push_reserved(Step {
                            variable: step.variable,
                            next,
                        });
                    }
                    step = Step {
                        variable: other,
                        next: 0,
                    };
                }
                Way::Redundant => {
                    self.settle(step.variable, Idea::Redundant);
                    match self.path.pop() {
                        Some(last) => step = last,
                        None => return,
                    }
                }
                Way::Needed => {
                    self.settle(step.variable, Idea::Needed);
                    while let Some(before) = self.path.pop() {
                        self.settle(before.variable, Idea::Needed);
                    }
                    return;
                }
            }
        }
    }

    /// Resolves what is kept of the redundant variables, the last first, and forgets what was known
    /// of all.
    fn drop_redundant(
        &mut self,
        engine: &Engine,
        store: &Store,
        asserting: Lit,
        marking: &mut Marking,
    )
        requires { CanMinimise engine.now store.now.slots marking.old asserting }
        ensures { ReducesToOne engine.now store.now.slots marking.old marking.new asserting }
    {
        while let Some(settled) = self.settled.pop() {
            let variable = settled.min(engine.variables());
            let idea = self.idea_of(variable);
            note(&mut self.ideas, variable, Idea::Unknown);
            if idea == Idea::Redundant
                && marking.mark_of(variable) == Mark::Kept
                && variable != asserting.variable()
                && let Some(reason) = engine.reason(variable)
            {
                let _ = resolve_one(engine, store, variable, reason, marking);
            }
        }
    }

    /// Takes in what was not met of a clause and stands above level 0.
    fn take_in(&mut self, engine: &Engine, lits: &[Lit], marks: &[Mark], beside: &mut Vec<u32>)
        requires has { HasMarks engine.now marks.now lits.now }
        requires named { AreVariables marks.now beside.old.items }
        ensures named { AreVariables marks.now beside.new.items }
    {
        for lit in lits {
            let variable = lit.variable();
            if marks[variable as usize] == Mark::Clear
                && self.idea_of(variable) == Idea::Unknown
                && level_of(engine, variable) > 0
            {
                note(&mut self.ideas, variable, Idea::Needed);
                put(beside, variable);
            }
        }
    }
}
