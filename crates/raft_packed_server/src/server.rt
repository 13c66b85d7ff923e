//! A server.

ghost use Rattle.std.specs.Prelude.{◌≡◌, ◌↔◌, Err, IfErr, IfOk, IfSome, IsErr, None, OnErr, OnOk, Some, if◌then◌else◌, map, nat_eq};
ghost use Rattle.std.specs.Option.{option_copied, option_map};
ghost use Rattle.raft_frames.specs.declared.error.PushError.TheVariants as push;
ghost use Rattle.raft_frames.specs.Format.{start};
ghost use Rattle.raft_packed_wire.specs.raft_packed_node.Held.{IsPackedAtRest};
ghost use Rattle.proof_logs.specs.Batches.{bytes_of};
ghost use Rattle.raft_packed_server.specs.Checkpoints.{BeginsLog, TakesOver, first_batches, without_next_log};
ghost use Rattle.raft_packed_server.specs.Fits.{FitFrom, FitsBoth, StepRunsOut};
ghost use Rattle.raft_packed_server.specs.Logs.{logged_by};
ghost use Rattle.raft_packed_server.specs.Recovery.{Opens, unstarted};
ghost use Rattle.raft_packed_server.specs.Represents.{Flushes, HandsOut, Stays, Takes};
ghost use Rattle.raft_packed_server.specs.Views.{IsWithTaken, released, step_of};
ghost use Rattle.raft_packed_server.specs.declared.error.ServerError.TheVariants.{Stopped, Write};

use crate::batch::{NewLog, Said, Written};
use crate::checkpoint::{begin_log, give_up_log, prepare_log, take_over};
use crate::error::{OpenError, ServerError};
use crate::records::Records;
use crate::recovery::{Recovery, recover};
use crate::serving::{Serving, fold_some, hand_out, release, take_step};
use raft_frames::LogId;
use raft_node::act::Act;
use raft_node::given::Given;
use raft_packed_wire::raft_packed::Machine;
use raft_packed_wire::raft_packed_node::{Node, Outbox, PackedAct};
use raft_schedule::event::{Outcome, Start};
use std::alloc::{AllocError, Global};
use std::marker::Model;
use std::num::NonZeroUsize;

/// A server without input and output: a node, the bytes for its log's end, and what waits until they are on disk.
pub struct Server<M: Machine> {
    alloc: Global,
    given: Given,
    /// None once it has stopped.
    serving: Option<Serving<M>>,
}

// Written out, so that it is proved once: a derived one is laid out wherever a server may be dropped.
impl<M: Machine> Drop for Server<M> {
    fn drop(self) {
        let Server {
            alloc: _,
            given: _,
            serving: _,
        } = self;
    }
}

impl<M: Machine> Model for Server<M> {
    ghost use Rattle.raft_packed_server.specs.Views.{RestsWhereServing, ServerView};

    ghost Value = { ServerView M };

    ghost view = { λ s. record { given = s.given; serving = s.serving } };

    ghost invariant = { λ s. RestsWhereServing s.serving };
}

/// A server that was opened on its log.
#[derive(Drop)]
pub struct Opened<M: Machine> {
    pub server: Server<M>,
    /// How many bytes of the log are kept. What stands behind them is cut off, and that is synced, before anything is
    /// appended.
    pub end: usize,
}

/// The header, if the log has none yet.
fn missing_header(id: &LogId, end: usize) -> Option<LogId>
    ensures { result ≡ (if nat_eq end 0 then Some id.now else None) }
{
    if end == 0 { Some(*id) } else { None }
}

/// A server before its start, on what its log gave back.
fn unstarted<M: Machine>(alloc: Global, id: &LogId, recovery: Recovery<M>) -> Serving<M>
    ensures { result ≡ unstarted id.now recovery }
{
    let disk = recovery.disk;
    Serving {
        node: Node::stopped(id.node, disk.store, disk.moment),
        reserved: disk.moment,
        written: None,
        steps: 0,
        records: Records::new(alloc),
        outputs: Outbox::new(alloc),
        header: missing_header(id, recovery.end),
        tail: recovery.tail,
        next: None,
    }
}

/// It serves no more.
fn stop<M: Machine>(serving: &mut Option<Serving<M>>)
    ensures { serving.new ≡ None }
{
    *serving = None;
}

impl<M: Machine> Server<M> {
    /// Opens a server on its log, which may be empty, and starts its node at a moment in milliseconds, or at the
    /// greatest moment of the log's records, if that is later. A node that led doesn't lead on. The start's own record
    /// waits like that of each other step.
    ///
    /// Refusals:
    /// - [`OpenError::Log`]: the log is damaged, or another's.
    /// - [`OpenError::Record`]: a frame holds something else than records.
    /// - [`OpenError::Replay`]: the records can't be replayed.
    /// - [`OpenError::Start`]: the node can't start on what they make.
    ///
    /// Each of them may be out of memory.
    pub fn open(
        alloc: Global,
        given: Given,
        id: &LogId,
        log: &[u8],
        at: u64,
    ) -> Result<Opened<M>, OpenError>
        ensures opens { Opens M.application M.codec given id.now log.now at result }
        ensures given { IfOk result (λ o. o.server.given ≡ given) }
    {
        let recovery = recover(alloc, id, log)?;
        let end = recovery.end;
        let mut serving = unstarted(alloc, id, recovery);
        let at = at.max(serving.reserved);
        let start = PackedAct::plain(Act::Restart(Start::Bare));
        match take_step(alloc, &given, &mut serving, start, at) {
            Ok(_) => Ok(Opened {
                server: Server {
                    alloc,
                    given,
                    serving: Some(serving),
                },
                end,
            }),
            Err(error) => Err(OpenError::Start(error)),
        }
    }

    /// Takes a step at a moment in milliseconds, or at the greatest moment so far, if that is later. What it says waits
    /// until its record, and all before it, are on disk. A step that changes nothing on disk leaves no record, unless
    /// its moment is above those that are reserved.
    ///
    /// After an `Err` the server has stopped:
    /// - [`ServerError::Stopped`]: it had before.
    /// - [`ServerError::Step`]: the node took no step. Where it is at rest, as each of a world is, memory ran out, or the index behind
    ///   an entry that was to be applied has no 64 bits (`fits`).
    pub fn step(&mut self, act: PackedAct<M>, at: u64) -> Result<Outcome, ServerError>
        ensures takes { Takes M.application (step_of M.application act at) self.old result self.new }
        ensures taken { OnOk result (IsWithTaken M.application self.old.given (step_of M.application act at) self.old.serving self.new.serving) }
        ensures fits { IfSome self.old.serving (λ v. IsPackedAtRest M.application v.node → IfErr result StepRunsOut) }
        ensures given { self.new.given ≡ self.old.given }
        ensures err { OnErr result (self.new.serving ≡ None) }
        ensures stays_stopped { self.old.serving ≡ None → result ≡ Err Stopped }
    {
        let Some(serving) = &mut self.serving else {
            return Err(ServerError::Stopped);
        };
        match take_step(self.alloc, &self.given, serving, act, at) {
            Ok(outcome) => Ok(outcome),
            Err(error) => {
                stop(&mut self.serving);
                Err(ServerError::Step(error))
            }
        }
    }

    /// Hands out the bytes for the log's end: the records that wait as one frame, behind the header if the log is new.
    /// None if no record waits, or while others are on their way: until [`flushed`](Server::flushed) is called with
    /// their end. What the steps of a frame say waits for it, also of those that left no record. If a new log is on its way
    /// ([`begin_log`](Server::begin_log)), the same records are handed out for its end too.
    ///
    /// After an `Err` the server has stopped:
    /// - [`ServerError::Stopped`]: it had before.
    /// - [`ServerError::Write`]: the records have more than [`MAX_FRAME`](raft_frames::MAX_FRAME) bytes, or a log would
    ///   end at 2^64 bytes or later, or out of memory.
    pub fn write(&mut self) -> Result<Option<Written>, ServerError>
        ensures hands_out { IfOk result (λ written. HandsOut M.codec self.old.serving written self.new.serving) }
        ensures fits { IfSome self.old.serving (λ v. FitsBoth v.tail v.next (bytes_of (logged_by M.codec) v.records)
            → IfErr result (λ e. e ≡ Write push.OutOfMemory)) }
        ensures stays { Stays M.application self.old result self.new }
        ensures given { self.new.given ≡ self.old.given }
        ensures err { OnErr result (self.new.serving ≡ None) }
        ensures stays_stopped { self.old.serving ≡ None → result ≡ Err Stopped }
    {
        let Some(serving) = &mut self.serving else {
            return Err(ServerError::Stopped);
        };
        match hand_out(self.alloc, serving) {
            Ok(written) => Ok(written),
            Err(error) => {
                stop(&mut self.serving);
                Err(ServerError::Write(error))
            }
        }
    }

    /// Prepares a new log, while the old one goes on: encodes some `most` bytes more of the snapshot with which it begins, or sums them. Answers
    /// whether more is left to be done. It is lost once the snapshot changes. Out of memory, what was prepared is dropped.
    pub fn prepare_log(&mut self, id: &LogId, most: NonZeroUsize) -> Result<bool, AllocError>
        ensures { self.new ≡ self.old }
    {
        let Some(serving) = &mut self.serving else {
            return Ok(false);
        };
        prepare_log(self.alloc, id, most, serving)
    }

    /// Begins a new log: a checkpoint, which makes what the old log's records made. Its bytes are written to a new file, beside the old one, which
    /// goes on as before. From now on what [`write`](Server::write) hands out for the new log is appended to its file. Once that has all of it and
    /// is synced, [`take_over`](Server::take_over) is called. A new log that was on its way before is given up.
    ///
    /// Its first frame has the snapshot, as [`prepare_log`](Server::prepare_log) has made it; else it is made now, which takes long if the state is
    /// large. The second one has all else.
    ///
    /// A crash before the new file has the old one's place leaves the old log, and one after that the new log: they make the same.
    ///
    /// None while a frame is on its way to the disk, or records wait. An `Err` changes nothing:
    /// - [`ServerError::Stopped`]: the server has stopped.
    /// - [`ServerError::Write`]: one of the frames has more than [`MAX_FRAME`](raft_frames::MAX_FRAME) bytes, or out of memory.
    pub fn begin_log(&mut self, id: &LogId) -> Result<Option<NewLog>, ServerError>
        ensures begins { IfOk result (λ log. BeginsLog M.codec id.now self.old.serving log self.new.serving) }
        ensures fits { IfSome self.old.serving (λ v. FitFrom (start id.now) (map (bytes_of (logged_by M.codec)) (first_batches v))
            → IfErr result (λ e. e ≡ Write push.OutOfMemory)) }
        ensures given { self.new.given ≡ self.old.given }
        ensures err { OnErr result (self.new ≡ self.old) }
        ensures stays_stopped { self.old.serving ≡ None → result ≡ Err Stopped }
    {
        let Some(serving) = &mut self.serving else {
            return Err(ServerError::Stopped);
        };
        match begin_log(self.alloc, id, serving) {
            Ok(log) => Ok(log),
            Err(error) => Err(ServerError::Write(error)),
        }
    }

    /// The new log takes the old one's place, with all that was handed out: gives where it ends, in bytes. From now on positions are those of
    /// the new log. It is called once the new file has all of it and is synced; then that file takes the old one's place, durably, before anything
    /// more is written.
    ///
    /// None, and nothing changes, if no new log is on its way, while a frame is on its way to the disk, or once the server has stopped.
    pub fn take_over(&mut self) -> Option<u64>
        ensures takes_over { TakesOver self.old.serving result self.new.serving }
        ensures given { self.new.given ≡ self.old.given }
    {
        let Some(serving) = &mut self.serving else {
            return None;
        };
        take_over(serving)
    }

    /// The new log can't be written, and is given up: the old one goes on alone.
    pub fn give_up_log(&mut self)
        ensures { self.new ≡ record self.old { serving = option_map without_next_log self.old.serving } }
    {
        if let Some(serving) = &mut self.serving {
            give_up_log(serving);
        }
    }

    /// The log is on disk up to this position: what the steps say whose records stand up to there leaves, in their
    /// order. If then no record is on its way to the disk and none waits, what the steps behind them say leaves too: they
    /// left no record, and need none on disk. So it may be called at any time with the position up to which the log was
    /// on disk last.
    ///
    /// Refused with [`ServerError::Stopped`] once the server has stopped.
    pub fn flushed(&mut self, position: u64) -> Result<Said<M>, ServerError>
        ensures flushes { Flushes M.application position self.old result self.new }
        ensures released { OnOk result (self.new.serving ≡ option_map (λ v. (released position v).1) self.old.serving) }
        ensures given { self.new.given ≡ self.old.given }
        ensures stopped { IsErr result ↔ (self.old.serving ≡ None) }
        ensures err { OnErr result (self.new ≡ self.old) }
    {
        let Some(serving) = &mut self.serving else {
            return Err(ServerError::Stopped);
        };
        Ok(release(self.alloc, serving, position))
    }

    /// Makes a part of the snapshot's state, for which nothing waits: [`Node::fold_some`]. Answers whether more is left. Out of memory, the
    /// server has stopped.
    pub fn fold_some(&mut self, most: usize) -> Result<bool, AllocError>
        ensures ok { OnOk result (self.new ≡ self.old) }
        ensures err { OnErr result (self.new ≡ record self.old { serving = None }) }
    {
        let Some(serving) = &mut self.serving else {
            return Ok(false);
        };
        match fold_some(most, serving) {
            Ok(is_more) => Ok(is_more),
            Err(error) => {
                stop(&mut self.serving);
                Err(error)
            }
        }
    }

    /// The node, unless the server has stopped.
    pub fn node(&self) -> Option<&Node<M>>
        ensures { option_copied result ≡ option_map (λ v. v.node) self.now.serving }
    {
        match &self.serving {
            Some(serving) => Some(&serving.node),
            None => None,
        }
    }
}
