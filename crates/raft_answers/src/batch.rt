//! Requests that are proposed together.

ghost use Rattle.std.specs.Prelude.{◌≡◌, OnOk};
ghost use Rattle.raft_answers.specs.Requests.{batched, no_batch, place_of, with_request, with_value};

use crate::request::{Operation, Request, Token};
use raft_state::Items;
use std::alloc::{AllocError, Global};

/// A request of a batch, and which of the batch's values it waits for, counted from 0.
#[derive(Clone, Copy, PartialEq, Eq, Debug)]
pub struct Place {
    pub token: Token,
    /// When the request came, in milliseconds.
    pub since: u64,
    pub value: u64,
}

/// Requests that are proposed together, and their values.
#[derive(Debug, Drop)]
pub struct Batch {
    pub places: Vec<Place>,
    pub values: Vec<Items<u8>>,
    /// How many bytes the values have.
    pub bytes: usize,
}

/// The place of the last value, or 0.
fn last_place(values: &[Items<u8>]) -> u64
    ensures { result ≡ place_of values.now }
{
    (values.len() as u64).saturating_sub(1)
}

/// What a request adds: a write its value; a read a marker without bytes, if no value is there yet.
fn push_value(
    alloc: Global,
    operation: Operation,
    values: &mut Vec<Items<u8>>,
) -> Result<(), AllocError>
    ensures { OnOk result (values.new.items ≡ with_value operation values.old.items) }
{
    match operation {
        Operation::Write(bytes) => Ok(values.push(bytes)?),
        Operation::Read => {
            if values.is_empty() {
                values.push(Items::new(alloc))?;
            }
            Ok(())
        }
    }
}

impl Batch {
    /// No requests.
    pub(crate) fn new(alloc: Global) -> Self
        ensures { batched result ≡ no_batch }
    {
        Batch {
            places: Vec::new(alloc),
            values: Vec::new(alloc),
            bytes: 0,
        }
    }

    /// Adds a request.
    pub(crate) fn add(&mut self, alloc: Global, request: Request) -> Result<(), AllocError>
        ensures { OnOk result (batched self.new ≡ with_request request (batched self.old)) }
    {
        let Request {
            token,
            since,
            operation,
        } = request;
        self.bytes = self.bytes.saturating_add(operation.len());
        push_value(alloc, operation, &mut self.values)?;
        let value = last_place(&self.values);
        self.places.push(Place {
            token,
            since,
            value,
        })?;
        Ok(())
    }
}
