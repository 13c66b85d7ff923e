//! The state machine: keys, and what each client was last answered.

ghost use Rattle.std.specs.Prelude.{◌≡◌, ◌<◌, ◌⊎◌, IfOk, OnOk, length, nat_eq};
ghost use Rattle.std.specs.Map.{lookup};
ghost use Rattle.std.specs.NonZero.{non_zero_usize_get};
ghost use Rattle.raft_codec.specs.Codec.{Writes, Finds, FindsWhole, IsFoundBy};
ghost use Rattle.raft_machine.specs.Bytes.{state};
ghost use Rattle.raft_machine.specs.Machine.{State, state_of, started, apply, known, known_of, remembered};
ghost use Rattle.raft_machine.specs.Pieces.{GoesOn};
ghost use Rattle.raft_machine.specs.Space.{advanced};
ghost use Rattle.raft_machine.specs.declared.place.Place.TheVariants.{End, From, Front, Sessions};
ghost use Rattle.raft_machine.specs.Commands.{answer, run_all};

use crate::command::{Command, Query, Reply};
use crate::key::Key;
use crate::keyspace::Keyspace;
use crate::place::Place;
use crate::queries;
use crate::replies::copy_all;
use crate::sessions::{self, copy_sessions, read_sessions, write_sessions};
use crate::updates::run_all;
use lru::LruCache;
use raft_codec::{DecodeError, Fault, Reader};
use raft_state::Items;
use std::alloc::{AllocError, Global};
use std::num::NonZeroUsize;

/// The version of a state's form.
const VERSION: u8 = 1;

/// Whose request it is.
#[derive(Clone, Copy, Debug, PartialEq, Eq)]
pub struct Session {
    /// The client's number.
    pub id: u64,

    /// The request's number, which is greater than that of the client's request before.
    pub number: u64,
}

/// A request, as it stands in an entry of the log.
#[derive(Debug, Drop)]
pub struct Request {
    /// Whose request it is. One of nobody's is run each time that it comes.
    pub session: Option<Session>,

    /// When the leader took it, in milliseconds since the Unix epoch.
    pub moment: u64,

    /// What is run, one command after the other with nothing between.
    pub commands: Items<Command>,
}

/// What a request comes to.
#[derive(Debug, Drop)]
pub enum Outcome {
    /// What each of its commands answers.
    Answered(Items<Reply>),

    /// A later request of this client was answered before. It isn't run.
    Outdated,
}

/// A client's last request that was run.
#[derive(Debug, Drop)]
pub struct Answered {
    /// Its number.
    pub number: u64,

    /// What it was answered.
    pub replies: Items<Reply>,
}

impl Answered {
    /// A copy.
    pub(crate) fn copy(&self, alloc: Global) -> Result<Answered, AllocError>
        ensures { IfOk result (λ copied. copied ≡ self.now) }
    {
        Ok(Answered {
            number: self.number,
            replies: copy_all(alloc, self.replies.as_slice())?,
        })
    }
}

/// A map of byte strings, and what its clients were last answered.
///
/// It remembers a bounded number of clients. Where there is one more, that client is forgotten whose last request that was run is the oldest
/// in the log. So each server forgets the same one.
#[derive(Drop)]
pub struct Machine {
    keyspace: Keyspace,
    sessions: LruCache<u64, Answered>,
}

/// What is known of a client's request before it is run: what it is answered, or nothing if it is new.
fn known(
    sessions: &LruCache<u64, Answered>,
    alloc: Global,
    session: Session,
) -> Result<Option<Outcome>, AllocError>
    ensures { IfOk result (λ outcome. outcome ≡ known session.number (lookup (nat_eq session.id) sessions.now.entries)) }
{
    match sessions.peek(&session.id) {
        Some(last) => {
            if session.number == last.number {
                Ok(Some(Outcome::Answered(copy_all(alloc, last.replies.as_slice())?)))
            } else if session.number < last.number {
                Ok(Some(Outcome::Outdated))
            } else {
                Ok(None)
            }
        }
        None => Ok(None),
    }
}

/// What is known of a request before it is run.
fn known_of(
    sessions: &LruCache<u64, Answered>,
    alloc: Global,
    session: Option<Session>,
) -> Result<Option<Outcome>, AllocError>
    ensures { IfOk result (λ outcome. outcome ≡ known_of sessions.now session) }
{
    match session {
        Some(session) => known(sessions, alloc, session),
        None => Ok(None),
    }
}

/// Remembers what a client was answered. Out of memory, nothing is remembered.
fn remember(
    sessions: &mut LruCache<u64, Answered>,
    alloc: Global,
    session: Option<Session>,
    replies: &[Reply],
) -> Result<(), AllocError>
    ensures { OnOk result (sessions.new ≡ remembered sessions.old session replies.now) }
{
    if let Some(Session { id, number }) = session {
        let replies = copy_all(alloc, replies)?;
        sessions.put(id, Answered { number, replies })?;
    }
    Ok(())
}

/// Runs commands at a moment.
fn run_at(
    keyspace: &mut Keyspace,
    alloc: Global,
    moment: u64,
    commands: Items<Command>,
) -> Result<Items<Reply>, AllocError>
    ensures { IfOk result (λ replies. (keyspace.new, replies) ≡ run_all (advanced keyspace.old moment) commands) }
{
    keyspace.advance(moment);
    run_all(keyspace, alloc, commands)
}

impl Machine {
    /// No keys, and no clients. It remembers up to so many of them.
    pub fn new(alloc: Global, clients: NonZeroUsize) -> Result<Self, AllocError>
        ensures { IfOk result (λ machine. state_of machine ≡ started (non_zero_usize_get clients)) }
    {
        Ok(Machine {
            keyspace: Keyspace::new(alloc),
            sessions: LruCache::sparse(alloc, clients)?,
        })
    }

    /// Runs a request that is committed. A client's request that was run already is answered as it was then, and changes nothing.
    ///
    /// Out of memory, the machine is spent: its keys are what nobody knows, and it is to be dropped.
    #[tactic(auto, unfolding(crate::specs::Machine::apply))]
    pub fn apply(&mut self, alloc: Global, request: Request) -> Result<Outcome, AllocError>
        ensures { IfOk result (λ outcome. (state_of self.new, outcome) ≡ apply (state_of self.old) request) }
    {
        if let Some(outcome) = known_of(&self.sessions, alloc, request.session)? {
            return Ok(outcome);
        }
        let Request {
            session,
            moment,
            commands,
        } = request;
        let replies = run_at(&mut self.keyspace, alloc, moment, commands)?;
        remember(&mut self.sessions, alloc, session, replies.as_slice())?;
        Ok(Outcome::Answered(replies))
    }

    /// The moment of the last request that was run, or of one before it, if that is later. In milliseconds since the Unix epoch.
    pub fn moment(&self) -> u64
        ensures { result ≡ (state_of self.now).space.moment }
    {
        self.keyspace.moment()
    }

    /// What a query answers now.
    pub fn query(&self, alloc: Global, query: &Query) -> Result<Reply, AllocError>
        ensures { IfOk result (λ reply. reply ≡ answer (state_of self.now).space query.now) }
    {
        queries::answer(&self.keyspace, alloc, query)
    }

    /// A copy.
    pub fn copy(&self, alloc: Global) -> Result<Self, AllocError>
        ensures { IfOk result (λ copied. state_of copied ≡ state_of self.now) }
    {
        Ok(Machine {
            keyspace: self.keyspace.copy(alloc)?,
            sessions: copy_sessions(alloc, &self.sessions)?,
        })
    }

    /// Appends the state: the keys in order, and what each remembered client was answered, the latest first. A state has one form.
    #[tactic(auto, unfolding(crate::specs::Bytes::state))]
    pub fn write(&self, out: &mut Vec<u8>) -> Result<(), AllocError>
        ensures { Writes state (state_of self.now) result out.old.items out.new.items }
    {
        out.push(VERSION)?;
        self.keyspace.write(out)?;
        write_sessions(out, &self.sessions)
    }

    /// Appends what stands before the keys.
    fn write_front(&self, out: &mut Vec<u8>) -> Result<Place, AllocError>
        ensures next { IfOk result (λ next. GoesOn (state_of self.now) Front next out.old.items out.new.items) }
        ensures more { OnOk result (length out.old.items < length out.new.items) }
    {
        out.push(VERSION)?;
        self.keyspace.write_front(out)?;
        // no key is below the one without bytes
        Ok(Place::From(Key::from_vec(Vec::new(*out.allocator()))))
    }

    /// Appends keys from one on until there are so many bytes, or else what stands before what clients were answered.
    #[tactic(auto, using(crate::proofs::Pieces::keys_on, crate::proofs::Pieces::last_on))]
    fn write_keys(&self, first: Key, limit: usize, out: &mut Vec<u8>) -> Result<Place, AllocError>
        requires { length out.old.items < limit }
        ensures next { IfOk result (λ next. GoesOn (state_of self.now) (From first) next out.old.items out.new.items) }
        ensures more { OnOk result (length out.old.items < length out.new.items) }
    {
        match self.keyspace.write_from(first, limit, out)? {
            Some(next) => Ok(Place::From(next)),
            None => {
                sessions::write_front(out, &self.sessions)?;
                Ok(Place::Sessions(0))
            }
        }
    }

    /// Appends what clients were answered, so many left out, until there are so many bytes.
    #[tactic(auto, using(crate::proofs::Pieces::sessions_on, crate::proofs::Pieces::sessions_end))]
    fn write_answered(
        &self,
        count: usize,
        limit: usize,
        out: &mut Vec<u8>,
    ) -> Result<Place, AllocError>
        requires { length out.old.items < limit }
        ensures next { IfOk result (λ next. GoesOn (state_of self.now) (Sessions count) next out.old.items out.new.items) }
        ensures more { IfOk result (λ next. (next ≡ End) ⊎ (length out.old.items < length out.new.items)) }
    {
        let next = sessions::write_upto(out, limit, &self.sessions, count)?;
        if next < self.sessions.len() {
            Ok(Place::Sessions(next))
        } else {
            Ok(Place::End)
        }
    }

    /// Appends the next bytes of the state, some `most` of them: where they go on. From [`Place::Front`] to [`Place::End`] they are those that
    /// [`Machine::write`] appends.
    pub fn write_some(
        &self,
        at: Place,
        most: NonZeroUsize,
        out: &mut Vec<u8>,
    ) -> Result<Place, AllocError>
        ensures next { IfOk result (λ next. GoesOn (state_of self.now) at next out.old.items out.new.items) }
        ensures more { IfOk result (λ next. (next ≡ End) ⊎ (length out.old.items < length out.new.items)) }
    {
        let limit = out.len().saturating_add(most.get());
        match at {
            Place::Front => self.write_front(out),
            Place::From(first) => self.write_keys(first, limit, out),
            Place::Sessions(count) => self.write_answered(count, limit, out),
            Place::End => Ok(Place::End),
        }
    }

    /// Reads the state at the front, as [`Machine::decode`] reads one that is all.
    #[tactic(auto, unfolding(crate::specs::Bytes::state))]
    pub fn read(reader: &mut Reader<'_>) -> Result<Self, DecodeError>
        ensures { Finds state_of result (state.read reader.old) reader.new }
    {
        let left = reader.left();
        if reader.tag()? != VERSION {
            return Err(DecodeError::Malformed {
                fault: Fault::UnknownVersion,
                left,
            });
        }
        let keyspace = Keyspace::read(reader)?;
        let sessions = read_sessions(reader)?;
        Ok(Machine { keyspace, sessions })
    }

    /// The machine whose state has these bytes, all of them. It takes memory in proportion to them, whatever numbers they claim.
    ///
    /// Refuses by what is wrong, and how many bytes are left from where it begins:
    ///
    /// - bytes that end early, a number that isn't in its shortest form or is 2^64 or more, an unknown tag
    /// - another version of the form
    /// - keys that aren't in order, or have expired; a client twice, more clients than are remembered, or none that may be
    /// - bytes that follow the state
    pub fn decode(alloc: Global, bytes: &[u8]) -> Result<Self, DecodeError>
        ensures exactly { FindsWhole state_of result state bytes.now }
        ensures written { IfOk result (λ machine. state.fits (state_of machine) × (bytes.now ≡ state.bytes (state_of machine))) }
        ensures read_back { (st : State) → state.fits st → bytes.now ≡ state.bytes st → IsFoundBy state_of result st }
    {
        let mut reader = Reader::new(alloc, bytes);
        let machine = Machine::read(&mut reader)?;
        reader.end()?;
        Ok(machine)
    }
}
