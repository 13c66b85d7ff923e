//! A server and its disk.

ghost use Rattle.std.specs.Prelude.{◌≡◌, ◌++◌, [], IfOk, None, OnOk, length, take, true};
ghost use Rattle.proof_requests.specs.raft_core.Calls.{MayBeginLog, Receives, Ticks};
ghost use Rattle.proof_requests.specs.raft_packed_server.Checkpoints.{new_log_bytes};
ghost use Rattle.proof_requests.specs.Actions.{Initializes};
ghost use Rattle.raft_cluster.specs.Calls.{ByCore, ByFlush, ByNewLog, ByTakeOver, ByWrite, Calls, GivesUp};
ghost use Rattle.raft_cluster.specs.Calls.{Never, ReadsIf, Refuses, RequestsIf, StartsIf, Stops};
ghost use Rattle.raft_cluster.specs.Calls.{is_done, is_opened, is_refused, with_handed};
ghost use Rattle.raft_cluster.specs.Clusters.{IsNew};
ghost use Rattle.raft_cluster.specs.Disks.{bytes_of, next_of, torn};
ghost use Rattle.raft_cluster.specs.Outputs.{handed_in, others_in};
ghost use Rattle.raft_cluster.specs.Servers.{log_on};

use crate::comes::Comes;
use proof_requests::raft_core::raft_packed_server::NewLog;
use proof_requests::raft_core::{Config, CoreError, FrameError, OpenedCore, Output, RaftCore};
use raft_answers::{Operation, Token};
use raft_frames::LogId;
use raft_node::given::Given;
use raft_packed::Machine as StateMachine;
use raft_state::Items;
use std::alloc::{AllocError, Global};

/// The cluster that the servers' logs are of.
const CLUSTER: u64 = 1;

/// How many entries are applied to a snapshot's state at once.
const ENTRIES: usize = 1_000;

/// A server, while it is open, and its disk, which it knows only by what it reads when it opens.
pub struct Machine<M: StateMachine> {
    id: u64,
    core: Option<RaftCore<M>>,
    disk: Vec<u8>,
    /// The file beside it, for a new log until that takes the old one's place. No start reads it.
    beside: Vec<u8>,
    /// What the server has handed out for its log's end, and isn't on disk.
    written: Option<Handed>,
    /// Where the last bytes that were flushed begin.
    last: usize,
}

// Written out, so that it is proved once: a derived one is laid out wherever a machine may be dropped.
impl<M: StateMachine> Drop for Machine<M> {
    fn drop(self) {
        let Machine {
            id: _,
            core: _,
            disk: _,
            beside: _,
            written: _,
            last: _,
        } = self;
    }
}

/// Bytes that a server has handed out for its log's end, which end it then has, and those for the end of a new log that is on its way.
#[derive(Debug, Drop)]
pub struct Handed {
    pub bytes: Items<u8>,
    pub end: u64,
    pub next: Option<Items<u8>>,
}

/// What comes of a call, and what leaves the server.
#[derive(Drop)]
pub struct Done<M: StateMachine> {
    pub comes: Comes,
    pub outputs: Vec<Output<M>>,
}

/// The first bytes of some, at most so many.
fn first(bytes: &[u8], count: u64) -> &[u8]
    ensures { result.now ≡ take count bytes.now }
{
    bytes.get(..count as usize).unwrap_or(bytes)
}

/// The first bytes of what was handed out, at most so many, come on disk.
fn spill(written: &Option<Handed>, count: u64, disk: &mut Vec<u8>) -> Result<(), AllocError>
    ensures { OnOk result (disk.new.items ≡ disk.old.items ++ take count (bytes_of written.now)) }
{
    match written {
        None => Ok(()),
        Some(written) => disk.extend_from_slice(first(written.bytes.as_slice(), count)),
    }
}

/// What was handed out for the end of a new log comes to its file.
fn append_beside(next: &Option<Items<u8>>, beside: &mut Vec<u8>) -> Result<(), AllocError>
    ensures { OnOk result (beside.new.items ≡ beside.old.items ++ next_of next.now) }
{
    match next {
        None => Ok(()),
        Some(next) => beside.extend_from_slice(next.as_slice()),
    }
}

/// The bytes of a new log, one piece behind the other.
fn whole(log: NewLog) -> Result<Vec<u8>, AllocError>
    ensures { IfOk result (λ bytes. bytes.items ≡ new_log_bytes log) }
{
    let NewLog {
        mut front,
        snapshot,
        rest,
        ..
    } = log;
    front.extend_from_slice(&snapshot)?;
    front.extend_from_slice(&rest)?;
    Ok(front)
}

/// Has a server do all for which nothing waits: it prepares a new log, if one is wanted.
fn prepare<M: StateMachine>(core: &mut RaftCore<M>) -> Result<(), CoreError>
    ensures { OnOk result (core.new ≡ core.old) }
{
    for _ in 0..u32::MAX {
        if !core.fold_some(ENTRIES)? {
            break;
        }
    }
    Ok(())
}

/// Has a server begin a new log, if its log is long: it is prepared first.
fn begin<M: StateMachine>(core: &mut RaftCore<M>, name: &LogId) -> Result<Option<NewLog>, CoreError>
    ensures { IfOk result (λ log. MayBeginLog M.codec name.now core.old log core.new) }
{
    if let Some(log) = core.begin_log(name) {
        return Ok(Some(log));
    }
    prepare(core)?;
    Ok(core.begin_log(name))
}

/// What leaves, without the bytes for the log's end, and these.
fn split<M: StateMachine>(
    alloc: Global,
    outputs: Vec<Output<M>>,
) -> Result<(Vec<Output<M>>, Option<Handed>), AllocError>
    ensures others { IfOk result (λ found. found.0.items ≡ others_in outputs.items) }
    ensures handed { IfOk result (λ found. found.1 ≡ handed_in outputs.items) }
{
    let mut others = Vec::new(alloc);
    let mut handed = None;
    'outputs: for output in outputs {
        match output {
            Output::Append { bytes, end, next } => handed = Some(Handed { bytes, end, next }),
            other => others.push(other)?,
        }
    }
    Ok((others, handed))
}

impl<M: StateMachine> Done<M> {
    /// Nothing leaves.
    fn quiet(alloc: Global, comes: Comes) -> Self
        ensures comes { result.comes ≡ comes }
        ensures outputs { result.outputs.items ≡ [] }
    {
        Done {
            comes,
            outputs: Vec::new(alloc),
        }
    }
}

impl<M: StateMachine> Machine<M> {
    /// A server with an empty disk, which isn't open.
    pub fn new(alloc: Global, id: u64) -> Self
        ensures id { result.id ≡ id }
        ensures fresh { IsNew result }
    {
        Machine {
            id,
            core: None,
            disk: Vec::new(alloc),
            beside: Vec::new(alloc),
            written: None,
            last: 0,
        }
    }

    /// The server's id.
    pub fn id(&self) -> u64
        ensures { result ≡ self.now.id }
    {
        self.id
    }

    /// Whose log is on its disk.
    fn log(&self) -> LogId
        ensures { result ≡ log_on self.now }
    {
        LogId {
            cluster: CLUSTER,
            node: self.id,
        }
    }

    /// How many bytes are on disk.
    pub fn disk_len(&self) -> usize
        ensures { result ≡ length self.now.disk.items }
    {
        self.disk.len()
    }

    /// Where the last bytes that were flushed begin on disk.
    pub fn last(&self) -> usize {
        self.last
    }

    /// How many bytes were handed out and aren't on disk; none if none were.
    pub fn written_len(&self) -> Option<usize> {
        match &self.written {
            Some(written) => Some(written.bytes.as_slice().len()),
            None => None,
        }
    }

    /// Whether the server is open.
    pub fn is_open(&self) -> bool {
        self.core.is_some()
    }

    /// The server does nothing more, and what it handed out is lost.
    fn close(&mut self)
        ensures { self.new ≡ record self.old { core = None; written = None } }
    {
        drop(self.core.take());
        self.written = None;
    }

    /// Opens the server on its disk. What stands behind its log is cut off.
    pub fn start(&mut self, alloc: Global, given: Given, config: &Config) -> Comes
        ensures starts { StartsIf M.application M.codec (is_opened result) given self.old self.new }
        ensures id { self.new.id ≡ self.old.id }
    {
        if self.core.is_some() {
            return Comes::AlreadyOpen;
        }
        let name = self.log();
        match RaftCore::open(alloc, given, config, &name, &self.disk) {
            Ok(OpenedCore { core, end, .. }) => {
                let len = self.disk.len();
                self.disk.truncate(end);
                drop(self.core.replace(core));
                Comes::Opened { end, len }
            }
            Err(error) => Comes::NotOpened(error),
        }
    }

    /// The server is given the first entry of a new cluster.
    pub fn initialize(&mut self) -> Comes
        ensures does { Calls (ByCore (Initializes M.application)) self.old [] self.new }
        ensures id { self.new.id ≡ self.old.id }
    {
        let Some(core) = &mut self.core else {
            return Comes::NotOpen;
        };
        match core.initialize() {
            Ok(()) => Comes::Done,
            Err(error) => {
                self.close();
                Comes::Failed(error)
            }
        }
    }

    /// Time goes by, in milliseconds.
    pub fn tick(&mut self, alloc: Global, elapsed: u64, random: u64) -> Done<M>
        ensures does { Calls (ByCore (Ticks M.application)) self.old result.outputs.items self.new }
        ensures id { self.new.id ≡ self.old.id }
    {
        let Some(core) = &mut self.core else {
            return Done::quiet(alloc, Comes::NotOpen);
        };
        match core.tick(elapsed, random) {
            Ok(outputs) => Done {
                comes: Comes::Done,
                outputs,
            },
            Err(error) => {
                self.close();
                Done::quiet(alloc, Comes::Failed(error))
            }
        }
    }

    /// A client's request comes.
    pub fn request(&mut self, token: Token, operation: Operation) -> Comes
        ensures requests { RequestsIf (is_done result) token operation self.old self.new }
        ensures id { self.new.id ≡ self.old.id }
    {
        let Some(core) = &mut self.core else {
            return Comes::NotOpen;
        };
        match core.request(token, operation) {
            Ok(()) => Comes::Done,
            Err(error) => Comes::Refused(error),
        }
    }

    /// A client's read comes that needs no entry.
    pub fn read(&mut self, token: Token) -> Comes
        ensures requests { ReadsIf (is_done result) token self.old self.new }
        ensures id { self.new.id ≡ self.old.id }
    {
        let Some(core) = &mut self.core else {
            return Comes::NotOpen;
        };
        match core.read(token) {
            Ok(()) => Comes::Done,
            Err(error) => Comes::Refused(error),
        }
    }

    /// These members are wanted.
    pub fn change_members(&mut self, voters: Vec<u64>, learners: Vec<u64>) -> Comes
        ensures stays { self.new ≡ self.old }
        ensures id { self.new.id ≡ self.old.id }
    {
        let Some(core) = &mut self.core else {
            return Comes::NotOpen;
        };
        match core.change_members(voters, learners) {
            Ok(()) => Comes::Done,
            Err(error) => Comes::Refused(error),
        }
    }

    /// The bytes of a frame come.
    pub fn receive(&mut self, alloc: Global, bytes: &[u8]) -> Done<M>
        ensures does { Calls (ByCore (Receives M.application M.codec bytes.now)) self.old result.outputs.items self.new }
        ensures refused { is_refused result.comes ≡ true → Calls Never self.old result.outputs.items self.new }
        ensures id { self.new.id ≡ self.old.id }
    {
        let Some(core) = &mut self.core else {
            return Done::quiet(alloc, Comes::NotOpen);
        };
        match core.receive(bytes) {
            Ok(outputs) => Done {
                comes: Comes::Done,
                outputs,
            },
            Err(error) => self.refuse(alloc, error),
        }
    }

    /// A frame isn't taken, or the server has stopped on it.
    fn refuse(&mut self, alloc: Global, error: FrameError) -> Done<M>
        ensures { Refuses error self.old result self.new }
    {
        match error {
            FrameError::Core(error) => {
                self.close();
                Done::quiet(alloc, Comes::Failed(error))
            }
            FrameError::TooLarge
            | FrameError::Busy
            | FrameError::Stale { .. }
            | FrameError::Decode(_)
            | FrameError::Misdirected { .. }
            | FrameError::TermJump { .. } => Done::quiet(alloc, Comes::NotTaken(error)),
        }
    }

    /// The server proposes what waits, and hands out records for the end of its log.
    pub fn write(&mut self, alloc: Global) -> Result<Done<M>, AllocError>
        ensures does { IfOk result (λ done. Calls (ByWrite M.application M.codec) self.old done.outputs.items self.new) }
        ensures id { self.new.id ≡ self.old.id }
    {
        let Some(core) = &mut self.core else {
            return Ok(Done::quiet(alloc, Comes::NotOpen));
        };
        match core.write() {
            Ok(outputs) => self.hand_out(alloc, outputs),
            Err(error) => {
                self.close();
                Ok(Done::quiet(alloc, Comes::Failed(error)))
            }
        }
    }

    /// What was handed out is on its way to the disk.
    fn hand_out(&mut self, alloc: Global, outputs: Vec<Output<M>>) -> Result<Done<M>, AllocError>
        ensures outputs { IfOk result (λ done. done.outputs.items ≡ others_in outputs.items) }
        ensures handed { OnOk result (self.new ≡ with_handed (handed_in outputs.items) self.old) }
        ensures id { self.new.id ≡ self.old.id }
    {
        let (outputs, handed) = split(alloc, outputs)?;
        let Some(handed) = handed else {
            return Ok(Done {
                comes: Comes::NothingWritten,
                outputs,
            });
        };
        let comes = Comes::Written {
            len: handed.bytes.as_slice().len(),
            end: handed.end,
        };
        self.written = Some(handed);
        Ok(Done { comes, outputs })
    }

    /// What was handed out is on disk: what the server says then. If nothing was, it says what waits for nothing on disk.
    pub fn flush(&mut self, alloc: Global) -> Result<Done<M>, AllocError>
        ensures does { IfOk result (λ done. Calls (ByFlush M.application M.codec) self.old done.outputs.items self.new) }
        ensures id { self.new.id ≡ self.old.id }
    {
        let Some(core) = &mut self.core else {
            return Ok(Done::quiet(alloc, Comes::NotOpen));
        };
        let Some(written) = self.written.take() else {
            return match core.flushed(self.disk.len() as u64) {
                Ok(outputs) => Ok(Done {
                    comes: Comes::NothingFlushed,
                    outputs,
                }),
                Err(error) => {
                    self.close();
                    Ok(Done::quiet(alloc, Comes::Failed(error)))
                }
            };
        };
        let last = self.disk.len();
        self.disk.extend_from_slice(written.bytes.as_slice())?;
        append_beside(&written.next, &mut self.beside)?;
        self.last = last;
        match core.flushed(written.end) {
            Ok(outputs) => Ok(Done {
                comes: Comes::Flushed {
                    len: self.disk.len(),
                },
                outputs,
            }),
            Err(error) => {
                self.close();
                Ok(Done::quiet(alloc, Comes::Failed(error)))
            }
        }
    }

    /// The server begins a new log if its log is long, in a file beside its disk.
    pub fn begin_log(&mut self) -> Result<Comes, AllocError>
        ensures does { OnOk result (Calls (ByNewLog M.codec) self.old [] self.new) }
        ensures id { self.new.id ≡ self.old.id }
    {
        let name = self.log();
        let Some(core) = &mut self.core else {
            return Ok(Comes::NotOpen);
        };
        match begin(core, &name) {
            Ok(Some(log)) => {
                self.beside = whole(log)?;
                Ok(Comes::Begun {
                    len: self.beside.len(),
                })
            }
            Ok(None) => Ok(Comes::NoNewLog),
            Err(error) => {
                self.close();
                Ok(Comes::Failed(error))
            }
        }
    }

    /// The new log that is on its way takes the old one's place on disk.
    pub fn take_over(&mut self, alloc: Global) -> Comes
        ensures does { Calls ByTakeOver self.old [] self.new }
        ensures id { self.new.id ≡ self.old.id }
    {
        let Some(core) = &mut self.core else {
            return Comes::NotOpen;
        };
        let Some(_) = core.take_over() else {
            return Comes::NoNewLog;
        };
        self.disk = std::mem::replace(&mut self.beside, Vec::new(alloc));
        self.last = 0;
        Comes::Replaced {
            len: self.disk.len(),
        }
    }

    /// The new log that is on its way is given up.
    pub fn give_up_log(&mut self) -> Comes
        ensures does { Calls (ByCore GivesUp) self.old [] self.new }
        ensures id { self.new.id ≡ self.old.id }
    {
        let Some(core) = &mut self.core else {
            return Comes::NotOpen;
        };
        core.give_up_log();
        Comes::Done
    }

    /// The server begins a new log if its log is long, and stops before that one has taken the old one's place.
    pub fn crash_in_begin_log(&mut self) -> Comes
        ensures does { Calls Never self.old [] self.new }
        ensures id { self.new.id ≡ self.old.id }
    {
        let name = self.log();
        let Some(core) = &mut self.core else {
            return Comes::NotOpen;
        };
        match begin(core, &name) {
            Ok(Some(_)) => {
                self.close();
                Comes::Crashed {
                    len: self.disk.len(),
                }
            }
            Ok(None) => Comes::NoNewLog,
            Err(error) => {
                self.close();
                Comes::Failed(error)
            }
        }
    }

    /// The server stops. Of what was handed out so many bytes are on disk.
    pub fn crash(&mut self, bytes: u64) -> Result<Comes, AllocError>
        ensures stops { OnOk result (Stops self.old [] self.new) }
        ensures id { self.new.id ≡ self.old.id }
        ensures disk { OnOk result (self.new.disk.items ≡ torn bytes self.old) }
        ensures core { OnOk result (self.new.core ≡ None) }
    {
        spill(&self.written, bytes, &mut self.disk)?;
        let was_open = self.core.is_some();
        self.close();
        if !was_open {
            return Ok(Comes::NotOpen);
        }
        Ok(Comes::Crashed {
            len: self.disk.len(),
        })
    }

    /// The lowest bit of a byte on disk is turned.
    pub fn corrupt(&mut self, position: u64) -> Comes
        ensures { self.new ≡ record self.old { disk = self.new.disk } }
    {
        match self.disk.get_mut(position as usize) {
            Some(byte) => {
                *byte ^= 1;
                Comes::Done
            }
            None => Comes::NoByte,
        }
    }
}
