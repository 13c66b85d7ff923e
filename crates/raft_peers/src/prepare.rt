//! Messages whose snapshots are encoded in steps, before they leave in parts: a large one at once would keep a server from all else for seconds.

ghost use Rattle.std.specs.Prelude.{◌≡◌, ◌⊎◌, ◌++◌, Contains, IfErr, IfOk, List, OnOk, max};
ghost use Rattle.std.specs.NonZero.{non_zero_usize_get};
ghost use Rattle.raft_packed_server.specs.proof_packed.Nodes.{PackedMessage as Prepared};
ghost use Rattle.raft_packed_server.specs.raft_packed_wire.Values.{kept};
ghost use Rattle.raft_peers.specs.Parts.{outgoing_of};
ghost use Rattle.raft_peers.specs.Sends.{BringsSnapshot, Prepares};
ghost use Rattle.raft_peers.specs.declared.output.Output.{Output as Out};

use crate::output::Output;
use crate::parts::{Outgoing, begin, is_of, origin_of};
use raft_calls::message::{Message, Origin};
use raft_chunks::Title;
use raft_packed_server::raft_packed::{Machine, Packed};
use raft_packed_server::raft_packed_node::PackedMessage;
use raft_packed_server::raft_packed_wire::{PackedPlace, write_packed_some};
use std::alloc::{AllocError, Global};
use std::marker::Model;
use std::num::NonZeroUsize;

/// A message whose snapshot is being encoded: up to a place, its bytes so far, and their title.
#[derive(Drop)]
pub struct Preparing<M: Machine> {
    message: Message,
    snapshot: Packed<M>,
    at: PackedPlace,
    bytes: Vec<u8>,
    title: Title,
}

impl<M: Machine> Model for Preparing<M> {
    ghost use Rattle.raft_packed_server.specs.proof_packed.Nodes.{PackedMessage};
    ghost use Rattle.raft_peers.specs.Preparing.{IsEncodedUpto};

    ghost Value = { PackedMessage M };

    ghost view = { λ s. record { message = s.message; brought = s.snapshot } };

    ghost invariant = { λ s. IsEncodedUpto M.codec M.left M.fits_left (record { message = s.message; brought = s.snapshot })
        s.at s.bytes.items s.title };
}

/// So much, but not nothing.
pub fn some_of(most: usize) -> NonZeroUsize
    ensures { non_zero_usize_get result ≡ max 1 most }
{
    NonZeroUsize::new(most).unwrap_or(NonZeroUsize::MIN)
}

impl<M: Machine> Preparing<M> {
    /// A message with its snapshot, of which nothing is encoded; there is room for so many bytes.
    pub(crate) fn new(
        alloc: Global,
        room: usize,
        message: Message,
        snapshot: Packed<M>,
    ) -> Result<Self, AllocError>
        requires { BringsSnapshot message.body }
        ensures { IfOk result (λ made. made ≡ record { message = message; brought = snapshot }) }
    {
        let bytes = Vec::with_capacity(alloc, room)?;
        let title = Title::of(snapshot.end(), &bytes);
        Ok(Preparing {
            message,
            snapshot,
            at: PackedPlace::Front,
            bytes,
            title,
        })
    }

    /// Who takes it.
    pub fn to(&self) -> u64
        ensures { result ≡ self.now.message.to }
    {
        self.message.to
    }

    /// Where its message comes from.
    pub fn origin(&self) -> Option<Origin> {
        origin_of(&self.message)
    }

    /// Encodes the next bytes, some `most` of them.
    fn encode_some(self, alloc: Global, most: NonZeroUsize) -> Result<Self, AllocError>
        ensures { IfOk result (λ next. next ≡ self) }
    {
        let Preparing {
            message,
            snapshot,
            at,
            mut bytes,
            title,
        } = self;
        let mut piece = Vec::new(alloc);
        let at = write_packed_some(&mut piece, &snapshot, at, most)?;
        bytes.extend_from_slice(&piece)?;
        let title = title.append(&piece);
        Ok(Preparing {
            message,
            snapshot,
            at,
            bytes,
            title,
        })
    }

    /// Encodes the front: all, or more than so many bytes.
    pub(crate) fn encode_front(self, alloc: Global, most: usize) -> Result<Self, AllocError>
        ensures { IfOk result (λ next. next ≡ self) }
    {
        let mut one = self;
        // a step that isn't the last appends a byte at least
        for _ in 0..most {
            if one.at.is_end() || one.bytes.len() > most {
                return Ok(one);
            }
            one = one.encode_some(alloc, some_of(most))?;
        }
        Ok(one)
    }

    /// Whether all is encoded, in so many bytes at most.
    pub(crate) fn is_small(&self, most: usize) -> bool {
        self.at.is_end() && self.bytes.len() <= most
    }

    /// The message, as it was.
    pub(crate) fn into_message(self) -> PackedMessage<M>
        ensures { result ≡ self }
    {
        let Preparing {
            message,
            snapshot,
            ..
        } = self;
        PackedMessage {
            message,
            snapshot: Some(snapshot),
        }
    }

    /// The message as it goes out in parts, if all of its snapshot is encoded.
    fn finish(self) -> Result<Outgoing, Self>
        ensures ok { IfOk result (λ o. (o ≡ outgoing_of M.codec self) × BringsSnapshot self.message.body × (kept M.codec).fits self.brought) }
        ensures err { IfErr result (λ same. same ≡ self) }
    {
        if !self.at.is_end() {
            return Err(self);
        }
        let Preparing {
            message,
            bytes,
            title,
            ..
        } = self;
        Ok(Outgoing::titled(message, title, bytes))
    }
}

/// The one that is prepared for this server, if one is, is let go.
fn drop_to<M: Machine>(to: u64, preparing: &mut Vec<Preparing<M>>)
    ensures { (m : Prepared M) → Contains preparing.new.items m → Contains preparing.old.items m }
{
    preparing.retain(|one| one.to() != to);
}

/// A message waits until its snapshot is encoded, in the place of the one before it to the same server.
pub fn prepare<M: Machine>(
    one: Preparing<M>,
    preparing: &mut Vec<Preparing<M>>,
) -> Result<(), AllocError>
    ensures { OnOk result ((m : Prepared M) → Contains preparing.new.items m → Contains preparing.old.items m ⊎ (m ≡ one)) }
{
    drop_to(one.to(), preparing);
    Ok(preparing.push(one)?)
}

/// Encodes some `each` bytes more of a snapshot, if one is to be encoded. Answers whether more is left of it.
pub fn encode_some<M: Machine>(
    alloc: Global,
    each: usize,
    preparing: &mut Vec<Preparing<M>>,
) -> Result<bool, AllocError>
    ensures { OnOk result (preparing.new.items ≡ preparing.old.items) }
{
    let Some(one) = preparing.pop() else {
        return Ok(false);
    };
    let one = one.encode_some(alloc, some_of(each))?;
    let is_more = !one.at.is_end();
    preparing.push(one)?;
    Ok(is_more)
}

/// Encodes some `each` bytes more of a snapshot. Once all of it is encoded, its message begins to go out, in parts of at most `most` bytes.
pub fn prepare_some<M: Machine>(
    alloc: Global,
    start: u64,
    most: usize,
    each: usize,
    preparing: &mut Vec<Preparing<M>>,
    outgoing: &mut Vec<Outgoing>,
    outputs: &mut Vec<Output<M>>,
) -> Result<(), AllocError>
    ensures { OnOk result ((frames : List (Out M))
        × Prepares M.application M.codec start preparing.old.items outgoing.old.items frames preparing.new.items outgoing.new.items
        × (outputs.new.items ≡ outputs.old.items ++ frames)) }
{
    let Some(one) = preparing.pop() else {
        return Ok(());
    };
    let next = one.encode_some(alloc, some_of(each))?;
    match next.finish() {
        Ok(one) => begin(alloc, start, most, one, outgoing, outputs),
        Err(one) => Ok(preparing.push(one)?),
    }
}

/// Those are let go whose messages are of another leader's.
pub fn keep_prepared<M: Machine>(term: Option<u64>, preparing: &mut Vec<Preparing<M>>)
    ensures { (m : Prepared M) → Contains preparing.new.items m → Contains preparing.old.items m }
{
    preparing.retain(|one| is_of(one.origin(), term));
}
