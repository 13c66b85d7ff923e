//! Texts of optional values.

use std::fmt;

/// An optional value that prints as itself, or as `None` (openraft's `DisplayOption`).
#[derive(Clone, Copy, PartialEq, Eq, Debug)]
pub struct DisplayOption<T>(pub Option<T>);

impl<T: fmt::Display> fmt::Display for DisplayOption<T> {
    ghost use Rattle.raft_state.specs.Texts.{optional_text};

    ghost output = { λ optional. optional_text T.output optional.0 };

    fn fmt<W: fmt::Write>(&self, f: &mut fmt::Formatter<W>) -> fmt::Result {
        match &self.0 {
            Some(value) => value.fmt(f),
            None => f.write_str("None"),
        }
    }
}
