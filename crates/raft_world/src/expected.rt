//! What is true of nodes, and what was expected of them.

ghost use Rattle.std.specs.Prelude.{◌≡◌, IfErr, IfOk, false};
ghost use Rattle.std.specs.List.{list_all};
ghost use Rattle.raft_schedule.specs.declared.step.Step.TheVariants.{Expects};
ghost use Rattle.raft_world.specs.Expected.{applied_of, facts_of, has_fact, is_met, found_for, last_answer};
ghost use Rattle.raft_world.specs.Steps.{unmet_by};

use crate::world::World;
use raft_calls::lead::Answer;
use raft_node::node::Node;
use raft_schedule::step::{Expectation, Fact};
use raft_state::Items;
use raft_store::Store;
use std::alloc::{AllocError, Global};
use std::fmt;

/// An expectation that isn't met.
#[derive(PartialEq, Eq, Debug, Drop)]
pub struct Unmet {
    /// The line of the text that expects it, counted from 1.
    pub line: u64,
    pub expected: Expectation,
    /// What is there in its place; none for a node that there is not, or where no read was answered.
    pub found: Option<Expectation>,
}

impl fmt::Display for Unmet {
    ghost use Rattle.std.specs.Prelude.{Some};
    ghost use Rattle.raft_world.specs.Expected.{unmet_text};

    ghost output = { λ unmet. Some (unmet_text unmet.line unmet.expected unmet.found) };

    fn fmt<W: fmt::Write>(&self, f: &mut fmt::Formatter<W>) -> fmt::Result {
        let line = self.line;
        let expected = &self.expected;
        match &self.found {
            Some(found) => write!(f, "line {line}: expected {expected}, found {found}"),
            None => write!(f, "line {line}: expected {expected}, found nothing"),
        }
    }
}

/// The index of the last entry that a node's state machine has applied.
pub fn applied_of(store: &Store) -> Option<u64>
    ensures { result ≡ applied_of store.now }
{
    let count = store.applied_len() as u64;
    if count == 0 {
        return None;
    }
    Some(count - 1)
}

/// Whether this is true of a node.
fn has_fact(node: &Node, wanted: &Fact) -> bool
    ensures { result ≡ has_fact (facts_of node.now) wanted.now }
{
    let applied = Fact::Applied(applied_of(node.store()));
    match node.engine() {
        None => wanted.is_same(&Fact::Stopped) || wanted.is_same(&applied),
        Some(engine) => {
            let state = &engine.state;
            wanted.is_same(&Fact::Role(state.role))
                || wanted.is_same(&Fact::Vote(state.vote))
                || wanted.is_same(&Fact::Last(state.last_log_id()))
                || wanted.is_same(&Fact::Committed(state.committed()))
                || wanted.is_same(&applied)
        }
    }
}

/// Whether all these are true of a node.
fn has_facts(node: &Node, facts: &[Fact]) -> bool
    ensures { result ≡ list_all (has_fact (facts_of node.now)) facts.now }
{
    facts.iter().all(|fact| has_fact(node, fact))
}

/// All that is true of a node.
fn facts_of(alloc: Global, node: &Node) -> Result<Items<Fact>, AllocError>
    ensures { IfOk result (λ facts. facts ≡ facts_of node.now) }
{
    let mut facts = Items::new(alloc);
    match node.engine() {
        None => facts.push(Fact::Stopped)?,
        Some(engine) => {
            let state = &engine.state;
            facts.push(Fact::Role(state.role))?;
            facts.push(Fact::Vote(state.vote))?;
            facts.push(Fact::Last(state.last_log_id()))?;
            facts.push(Fact::Committed(state.committed()))?;
        }
    }
    facts.push(Fact::Applied(applied_of(node.store())))?;
    Ok(facts)
}

impl World {
    /// The last answer to a read.
    fn last_answer(&self) -> Option<Answer>
        ensures { result ≡ last_answer self.now.history.net.records }
    {
        self.records().answers.last().copied()
    }

    /// Whether what is expected is there. It takes no memory.
    fn is_met(&self, expectation: &Expectation) -> bool
        ensures { result ≡ is_met expectation.now self.now.history }
    {
        match expectation {
            Expectation::Node { id, facts } => match self.node(*id) {
                None => false,
                Some(node) => has_facts(node, facts.as_slice()),
            },
            Expectation::Read(log_id) => match self.last_answer() {
                None => false,
                Some(answer) => answer.log_id == *log_id,
            },
            // no two state machines ever differ
            Expectation::Agree => true,
        }
    }

    /// What is there in place of what is expected.
    fn found_for(&self, expectation: &Expectation) -> Result<Option<Expectation>, AllocError>
        ensures { IfOk result (λ found. found ≡ found_for expectation.now self.now.history) }
    {
        match expectation {
            Expectation::Node { id, .. } => match self.node(*id) {
                None => Ok(None),
                Some(node) => Ok(Some(Expectation::Node {
                    id: *id,
                    facts: facts_of(self.alloc, node)?,
                })),
            },
            Expectation::Read(_) => match self.last_answer() {
                None => Ok(None),
                Some(answer) => Ok(Some(Expectation::Read(answer.log_id))),
            },
            Expectation::Agree => Ok(Some(Expectation::Agree)),
        }
    }

    /// What is expected at a line if it isn't there, with what is.
    pub(crate) fn try_unmet(
        &self,
        line: u64,
        expectation: &Expectation,
    ) -> Result<Option<Unmet>, AllocError>
        ensures unmet { IfOk result (λ unmet. unmet ≡ unmet_by line (Expects expectation.now) self.now.history) }
        ensures err { IfErr result (λ _. is_met expectation.now self.now.history ≡ false) }
    {
        if self.is_met(expectation) {
            return Ok(None);
        }
        Ok(Some(Unmet {
            line,
            expected: expectation.copy()?,
            found: self.found_for(expectation)?,
        }))
    }
}
