//! The key-value state machine, as each server keeps it and sends it to others.

ghost use Rattle.std.specs.Prelude.{◌≡◌, IfOk, OnOk};
ghost use Rattle.raft_machine.specs.Commands.{answer};
ghost use Rattle.raft_machine.specs.Machine.{apply, started, state_of};
ghost use Rattle.raft_executor.specs.KeyValue.{place_in, ran, request_at, request_in, state_in};
ghost use Rattle.raft_executor.specs.declared.key_value.TheConstants.{SESSIONS};

use raft_codec::{DecodeError, Reader};
use raft_machine::{Key, Machine, Outcome, Query, Reply, Request};
use raft_packed::Place;
use raft_request_codec::decode_request;
use raft_state::Items;
use raft_store::{Entry, Payload, Value};
use std::alloc::{AllocError, Global};
use std::marker::Model;
use std::num::NonZeroUsize;
use std::rc::Rc;

/// For how many sessions the last answer is remembered. It is part of the state, and so the same at each server.
pub const SESSIONS: usize = 10_000;

/// A map of byte strings with client sessions: what the requests in the entries make of it. Copies share it until one of them runs a
/// request, or is made its only owner: only then are its keys copied.
#[derive(Drop)]
pub struct KeyValue {
    alloc: Global,
    /// Nothing before the first request, so that a new one allocates nothing.
    machine: Option<Rc<Machine>>,
}

impl Model for KeyValue {
    ghost use Rattle.raft_machine.specs.Machine.{State};
    ghost use Rattle.raft_executor.specs.KeyValue.{state_code, state_in};

    ghost Value = { State };

    ghost coded = { state_code };

    ghost view = { λ k. state_in k.machine };
}

/// A machine without keys and sessions.
fn start(alloc: Global) -> Result<Machine, AllocError>
    ensures { IfOk result (λ machine. state_of machine ≡ started SESSIONS) }
{
    Machine::new(alloc, NonZeroUsize::new(SESSIONS).unwrap())
}

/// The machine, which is made if there is none yet.
fn machine_or_start(alloc: Global, machine: Option<Rc<Machine>>) -> Result<Rc<Machine>, AllocError>
    ensures { IfOk result (λ made. state_of made.value ≡ state_in machine) }
{
    match machine {
        Some(machine) => Ok(machine),
        None => Ok(Rc::new(alloc, start(alloc)?)?),
    }
}

/// Runs a request: in place if nobody else has the machine, and else on a copy of it.
fn apply(alloc: Global, machine: &mut Rc<Machine>, request: Request) -> Result<Outcome, AllocError>
    ensures { IfOk result (λ outcome. (state_of machine.new.value, outcome) ≡ apply (state_of machine.old.value) request) }
{
    if let Some(machine) = Rc::get_mut(machine) {
        return machine.apply(alloc, request);
    }
    let mut copied = machine.copy(alloc)?;
    let outcome = copied.apply(alloc, request)?;
    *machine = Rc::new(alloc, copied)?;
    Ok(outcome)
}

/// A copy of a machine that others have.
fn copy_of(alloc: Global, shared: &Rc<Machine>) -> Result<Rc<Machine>, AllocError>
    ensures { IfOk result (λ copied. state_of copied.value ≡ state_of shared.now.value) }
{
    Ok(Rc::new(alloc, shared.copy(alloc)?)?)
}

/// The machine, which nobody else has, if memory doesn't run out.
fn own(alloc: Global, shared: Rc<Machine>) -> Rc<Machine>
    ensures { state_of result.value ≡ state_of shared.value }
{
    if Rc::strong_count(&shared) == 1 {
        return shared;
    }
    match copy_of(alloc, &shared) {
        Ok(own) => own,
        Err(_) => shared,
    }
}

/// What comes of a value's bytes: nothing if they are no request.
fn run(
    alloc: Global,
    machine: &mut Option<Rc<Machine>>,
    bytes: &[u8],
) -> Result<Option<Outcome>, AllocError>
    ensures { IfOk result (λ outcome. (state_in machine.new, outcome) ≡ ran (state_in machine.old) (request_at bytes.now)) }
{
    match decode_request(alloc, bytes) {
        Ok(request) => {
            let mut running = machine_or_start(alloc, machine.take())?;
            let outcome = apply(alloc, &mut running, request)?;
            *machine = Some(running);
            Ok(Some(outcome))
        }
        Err(DecodeError::OutOfMemory) => Err(AllocError),
        Err(DecodeError::Malformed { .. }) => Ok(None),
    }
}

/// A place by the machine's names.
fn machine_place(at: Place) -> raft_machine::Place
    ensures { result ≡ place_in at }
{
    match at {
        Place::Front => raft_machine::Place::Front,
        Place::Item(key) => raft_machine::Place::From(Key::from_items(key)),
        Place::Count(count) => raft_machine::Place::Sessions(count),
        Place::End => raft_machine::Place::End,
    }
}

/// A place of the machine's.
fn state_place(at: raft_machine::Place) -> Place
    ensures { place_in result ≡ at }
{
    match at {
        raft_machine::Place::Front => Place::Front,
        raft_machine::Place::From(key) => Place::Item(Items::from_vec(key.into_vec())),
        raft_machine::Place::Sessions(count) => Place::Count(count),
        raft_machine::Place::End => Place::End,
    }
}

impl KeyValue {
    /// Runs the request of an entry, and gives what comes of it: nothing if the entry holds none. Out of memory, nothing is promised of the
    /// state.
    pub fn execute(&mut self, payload: &Payload) -> Result<Option<Outcome>, AllocError>
        ensures { IfOk result (λ outcome. (self.new, outcome) ≡ ran self.old (request_in payload.now)) }
    {
        match payload {
            Payload::Value(Value::Bytes(bytes)) => {
                run(self.alloc, &mut self.machine, bytes.as_slice())
            }
            _ => Ok(None),
        }
    }

    /// The same state, which nobody else has: so the first request needn't wait for a copy. Out of memory, others may still have it.
    pub fn into_owned(self) -> Self
        ensures { result ≡ self }
    {
        let KeyValue { alloc, machine } = self;
        let machine = match machine {
            Some(shared) => Some(own(alloc, shared)),
            None => None,
        };
        KeyValue { alloc, machine }
    }

    /// The moment of the state, in milliseconds since the Unix epoch: it never goes back.
    pub fn moment(&self) -> u64
        ensures { result ≡ self.now.space.moment }
    {
        match &self.machine {
            Some(machine) => machine.moment(),
            None => 0,
        }
    }

    /// What a query answers now.
    pub fn query(&self, query: &Query) -> Result<Reply, AllocError>
        ensures { IfOk result (λ reply. reply ≡ answer self.now.space query.now) }
    {
        match &self.machine {
            Some(machine) => machine.query(self.alloc, query),
            None => start(self.alloc)?.query(self.alloc, query),
        }
    }
}

impl raft_packed::Machine for KeyValue {
    ghost use Rattle.raft_machine.specs.Bytes.{state};
    ghost use Rattle.raft_machine.specs.BytesLaws.{state_is};
    ghost use Rattle.raft_machine.specs.Pieces.{FitsLeft, left};
    ghost use Rattle.std.specs.Prelude.{refl};
    ghost use Rattle.raft_executor.specs.KeyValue.{application, place_in};

    ghost application = { application };

    ghost codec = { state };

    ghost is_codec = { state_is };

    ghost left = { λ state at. left state (place_in at) };

    ghost fits_left = { λ state at. FitsLeft state (place_in at) };

    ghost begins = { λ state. (refl, λ fits. fits) };

    ghost ends = { λ state. (refl, tt) };

    fn new(alloc: Global) -> KeyValue {
        KeyValue {
            alloc,
            machine: None,
        }
    }

    fn apply(&mut self, entry: &Entry) -> Result<(), AllocError> {
        self.execute(&entry.payload)?;
        Ok(())
    }

    fn copy(&self) -> Result<KeyValue, AllocError> {
        let machine = match &self.machine {
            Some(machine) => Some(machine.clone()?),
            None => None,
        };
        Ok(KeyValue {
            alloc: self.alloc,
            machine,
        })
    }

    fn encode(&self, out: &mut Vec<u8>) -> Result<(), AllocError> {
        match &self.machine {
            Some(machine) => machine.write(out),
            None => start(self.alloc)?.write(out),
        }
    }

    fn encode_some(
        &self,
        at: Place,
        most: NonZeroUsize,
        out: &mut Vec<u8>,
    ) -> Result<Place, AllocError> {
        let at = machine_place(at);
        let next = match &self.machine {
            Some(machine) => machine.write_some(at, most, out)?,
            None => start(self.alloc)?.write_some(at, most, out)?,
        };
        Ok(state_place(next))
    }

    fn decode(reader: &mut Reader<'_>) -> Result<KeyValue, DecodeError> {
        let machine = Machine::read(reader)?;
        Ok(KeyValue {
            alloc: reader.allocator(),
            machine: Some(Rc::new(reader.allocator(), machine)?),
        })
    }
}
