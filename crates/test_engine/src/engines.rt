//! A text's lines, in turn, on one engine, which is that of a new node at first.
//!
//! A line is a call, which the heads of [`calls`](crate::calls), [`follower`](crate::follower),
//! [`leader`](crate::leader), [`purges`](crate::purges) and [`made`](crate::made) list; `show` and a question
//! ([`questions`](crate::questions)); `mark`; `same`, whether the engine is still as it was at the last `mark`; or `lend`,
//! behind which the lines are those of its handlers ([`lent`](crate::lent)).

use crate::calls::call;
use crate::lent::{any_line, first_line};
use crate::questions::{dump, question};
use crate::show::show_flag;
use crate::types::Small;
use anyhow::Result;
use raft_engine::Engine;
use std::alloc::Global;
use std::marker::Model;
use test_cases::{Lines, Sheet};

/// The engine of a case, which is in order until a handler was lent, and how it was at the last mark.
#[derive(Drop)]
pub struct Node {
    engine: Engine<Small>,
    marked: Vec<u8>,
    /// Whether `lend` was played, and whether a line behind it was.
    is_lending: bool,
    is_lent: bool,
}

impl Model for Node {
    ghost use Rattle.std.specs.Prelude.{◌≡◌, Bool, false};
    ghost use Rattle.test_engine.specs.Sound.{IsInOrder};

    ghost Value = { Bool };

    ghost view = { λ s. s.is_lent };

    ghost invariant = { λ s. s.is_lent ≡ false → IsInOrder s.engine };
}

impl Node {
    pub fn new(alloc: Global) -> Result<Self> {
        Ok(Node {
            engine: Engine::testing_default(alloc, 1)?,
            marked: Vec::new(alloc),
            is_lending: false,
            is_lent: false,
        })
    }
}

/// Whether the engine is still as it was at the last mark.
fn compare(engine: &Engine<Small>, marked: &[u8], sheet: &mut Sheet<'_>) {
    let now = dump(engine, sheet);
    show_flag("same", now.as_slice() == marked, sheet);
}

impl Lines for Node {
    fn play(&mut self, name: &str, sheet: &mut Sheet<'_>) {
        if self.is_lent {
            return any_line(&mut self.engine, name, sheet);
        }
        if self.is_lending {
            self.is_lent = true;
            return first_line(&mut self.engine, name, sheet);
        }
        match name {
            "lend" => self.is_lending = true,
            "mark" => self.marked = dump(&self.engine, sheet),
            "same" => compare(&self.engine, &self.marked, sheet),
            "show" => question(&self.engine, sheet),
            _ => call(&mut self.engine, name, sheet),
        }
    }
}
