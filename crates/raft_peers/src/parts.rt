//! Snapshots that leave and come in parts.

ghost use Rattle.std.specs.Prelude.{ℕ, ◌≡◌, ◌⊎◌, ◌∷◌, ◌++◌, [], Contains, IfOk, List, Ok, OnOk, Some};
ghost use Rattle.std.specs.List.{AllByRecursion};
ghost use Rattle.raft_codec.specs.Codec.{IsFound};
ghost use Rattle.raft_frames.specs.Laws.{IsByte};
ghost use Rattle.raft_chunks.specs.Assembly.{nothing, taken};
ghost use Rattle.raft_chunks.specs.Chunks.{piece_of, title_of};
ghost use Rattle.raft_chunks.specs.Form.{opened, piece, sealed};
ghost use Rattle.raft_packed_server.specs.proof_packed.Stores.{Packed as Snapshot};
ghost use Rattle.raft_packed_server.specs.raft_packed_wire.Values.{kept};
ghost use Rattle.raft_peers.specs.Parts.{AreParts, IsBefore, IsPartOf, IsWhole, LeavesAsPart, Outgoing as Going, chunk_of};
ghost use Rattle.raft_peers.specs.declared.output.Output.{Output as Out};

use crate::frame::packet_bytes;
use crate::output::{Output, push};
use raft_calls::message::{Body, Message, Origin};
use raft_chunks::{Assembly, Chunk, Cursor, TakeError, Title};
use raft_packed_server::raft_packed::{Machine, Packed};
use raft_packed_server::raft_packed_wire::{PackedContent, PackedPacket, SentPart, read_packed};
use raft_state::Items;
use raft_wire::{DecodeError, Reader};
use std::alloc::{AllocError, Global};
use std::marker::Model;

/// A message whose snapshot goes out in parts: without it, its bytes, and where the next part begins.
#[derive(Drop)]
pub struct Outgoing {
    message: Message,
    bytes: Vec<u8>,
    at: Cursor,
}

impl Model for Outgoing {
    ghost use Rattle.std.specs.Prelude.{◌≡◌};
    ghost use Rattle.raft_chunks.specs.Chunks.{title_of};
    ghost use Rattle.raft_peers.specs.Parts.{Outgoing};

    ghost Value = { Outgoing };

    ghost view = { λ s. record { message = s.message; number = s.at.title.number; bytes = s.bytes.items } };

    ghost invariant = { λ s. s.at.title ≡ title_of s.at.title.number s.bytes.items };
}

/// Where a request to install a snapshot comes from.
pub fn origin_of(message: &Message) -> Option<Origin> {
    match &message.body {
        Body::SnapshotRequest { origin, .. } => Some(*origin),
        _ => None,
    }
}

/// Whether a message from there is of the leader of this term.
pub(crate) fn is_of(origin: Option<Origin>, term: Option<u64>) -> bool {
    match origin {
        Some(origin) => term == Some(origin.session_id.vote.leader_id.term),
        None => false,
    }
}

/// The snapshot whose bytes these are: all of them.
fn read_snapshot<M: Machine>(alloc: Global, bytes: &[u8]) -> Result<Packed<M>, DecodeError>
    ensures written { IfOk result (λ found. (kept M.codec).fits found × (bytes.now ≡ (kept M.codec).bytes found)) }
    ensures read_back { (p : Snapshot M) → (kept M.codec).fits p → bytes.now ≡ (kept M.codec).bytes p → IsFound result p }
{
    let mut reader = Reader::new(alloc, bytes);
    let snapshot = read_packed::<M>(&mut reader)?;
    reader.end()?;
    Ok(snapshot)
}

/// The snapshot whose bytes these are, if there is one.
fn find_snapshot<M: Machine>(alloc: Global, bytes: &[u8]) -> Result<Option<Packed<M>>, AllocError>
    ensures { IfOk result (IsWhole M.codec (Ok (Some bytes.now))) }
{
    match read_snapshot(alloc, bytes) {
        Ok(snapshot) => Ok(Some(snapshot)),
        Err(DecodeError::OutOfMemory) => Err(AllocError),
        Err(DecodeError::Malformed { .. }) => Ok(None),
    }
}

/// Bytes are less than 256.
fn are_bytes(bytes: &[u8])
    ensures { AllByRecursion IsByte bytes.now }
{}

/// The bytes of a chunk, with their sum.
fn seal(alloc: Global, chunk: &Chunk<'_>) -> Result<Vec<u8>, AllocError>
    ensures fits { OnOk result (piece.fits (piece_of chunk.now)) }
    ensures sealed { IfOk result (λ bytes. bytes.items ≡ sealed piece (piece_of chunk.now)) }
    ensures bytes { IfOk result (λ bytes. AllByRecursion IsByte bytes.items) }
{
    let mut bytes = Vec::new(alloc);
    chunk.encode(&mut bytes)?;
    are_bytes(&bytes);
    Ok(bytes)
}

impl Outgoing {
    /// A message that brings a snapshot with these bytes, which have this title.
    pub(crate) fn titled(message: Message, title: Title, bytes: Vec<u8>) -> Self
        requires { title ≡ title_of title.number bytes.items }
        ensures { result ≡ record { message = message; number = title.number; bytes = bytes.items } }
    {
        let at = Cursor::start(title);
        Outgoing { message, bytes, at }
    }

    /// Who takes it.
    pub fn to(&self) -> u64
        ensures { result ≡ self.now.message.to }
    {
        self.message.to
    }

    /// Where its message comes from.
    pub fn origin(&self) -> Option<Origin> {
        origin_of(&self.message)
    }

    /// Goes on where its target is, by an answer: whether that is elsewhere.
    pub fn follow(&mut self, answer: &Cursor) -> bool
        ensures { self.new ≡ self.old }
    {
        let before = self.at.offset;
        self.at.follow(answer);
        self.at.offset != before
    }

    /// Whether its target has all of the snapshot.
    pub fn is_at_end(&self) -> bool {
        self.at.is_at_end()
    }

    /// The bytes of the next chunk, with their sum.
    fn chunk(&self, alloc: Global, most: usize) -> Result<Items<u8>, AllocError>
        ensures { IfOk result (λ bytes. (offset : ℕ) × (opened piece bytes ≡ Ok (chunk_of self.now offset most))) }
    {
        let bytes = seal(alloc, &self.at.chunk(&self.bytes, most))?;
        Ok(Items::from_vec(bytes))
    }

    /// The next part, with at most so many of the snapshot's bytes.
    fn part(&self, alloc: Global, most: usize) -> Result<SentPart, AllocError>
        ensures { IfOk result (λ part. IsPartOf self.now part) }
    {
        let chunk = self.chunk(alloc, most)?;
        let message = self.message.copy(alloc)?;
        Ok(SentPart { message, chunk })
    }

    /// The next part leaves.
    pub fn send<M: Machine>(
        &self,
        alloc: Global,
        start: u64,
        most: usize,
        outputs: &mut Vec<Output<M>>,
    ) -> Result<(), AllocError>
        ensures { OnOk result ((out : Out M) × LeavesAsPart M.codec start self.now out × (outputs.new.items ≡ outputs.old.items ++ out ∷ [])) }
    {
        let part = self.part(alloc, most)?;
        let packet = PackedPacket::<Packed<M>> {
            start,
            content: PackedContent::Part(part),
        };
        let bytes = packet_bytes(alloc, &packet)?;
        let to = self.to();
        push(Output::Send { to, bytes }, outputs)
    }
}

/// The one that goes out to this server, if one does, is taken out.
fn take_to(to: u64, outgoing: &mut Vec<Outgoing>) -> Option<Outgoing>
    ensures taken { (o : Going) → result ≡ Some o → Contains outgoing.old.items o }
    ensures left { (o : Going) → Contains outgoing.new.items o → Contains outgoing.old.items o }
{
    let at = outgoing.iter().position(|one| one.to() == to)?;
    Some(outgoing.swap_remove(at))
}

/// A server has answered a part: the next one leaves, unless it has all, or says again where it is.
pub fn go_on<M: Machine>(
    alloc: Global,
    start: u64,
    most: usize,
    from: u64,
    cursor: &Cursor,
    outgoing: &mut Vec<Outgoing>,
    outputs: &mut Vec<Output<M>>,
) -> Result<(), AllocError>
    ensures outgoing { OnOk result ((o : Going) → Contains outgoing.new.items o → Contains outgoing.old.items o) }
    ensures outputs { OnOk result ((outputs.new.items ≡ outputs.old.items)
        ⊎ ((o : Going) × (out : List (Out M)) × Contains outgoing.old.items o × AreParts M.codec start o out
        × (outputs.new.items ≡ outputs.old.items ++ out))) }
{
    let Some(mut one) = take_to(from, outgoing) else {
        return Ok(());
    };
    if !one.follow(cursor) {
        return Ok(outgoing.push(one)?);
    }
    if one.is_at_end() {
        return Ok(());
    }
    one.send(alloc, start, most, outputs)?;
    Ok(outgoing.push(one)?)
}

/// A message begins to go out in parts, in the place of the one before it to the same server: the first part leaves.
pub fn begin<M: Machine>(
    alloc: Global,
    start: u64,
    most: usize,
    one: Outgoing,
    outgoing: &mut Vec<Outgoing>,
    outputs: &mut Vec<Output<M>>,
) -> Result<(), AllocError>
    ensures outgoing { OnOk result ((o : Going) → Contains outgoing.new.items o → Contains outgoing.old.items o ⊎ (o ≡ one)) }
    ensures outputs { OnOk result ((out : List (Out M)) × AreParts M.codec start one out × (outputs.new.items ≡ outputs.old.items ++ out)) }
{
    let _before = take_to(one.to(), outgoing);
    one.send(alloc, start, most, outputs)?;
    Ok(outgoing.push(one)?)
}

/// Those are let go whose messages are of another leader's.
pub fn keep_of(term: Option<u64>, outgoing: &mut Vec<Outgoing>)
    ensures { (o : Going) → Contains outgoing.new.items o → Contains outgoing.old.items o }
{
    outgoing.retain(|one| is_of(one.origin(), term));
}

/// A snapshot that comes in parts, as far as they came, and which request's was whole last.
#[derive(Drop)]
pub struct Incoming {
    pub assembly: Assembly,
    completed: Option<Origin>,
}

impl Incoming {
    /// Nothing has come.
    pub fn new(alloc: Global) -> Self
        ensures { result.assembly ≡ nothing 0 }
    {
        Incoming {
            assembly: Assembly::new(alloc, 0),
            completed: None,
        }
    }

    /// What was handed out before doesn't count for another request: that wants an answer of its own.
    pub fn hear(&mut self, alloc: Global, message: &Message, title: Title)
        ensures { IsBefore title self.old.assembly self.new.assembly }
    {
        let is_there = self.assembly.cursor(title).is_at_end();
        if is_there && self.completed != origin_of(message) {
            self.assembly = Assembly::new(alloc, 0);
        }
    }

    /// Puts a chunk behind those that came before: the snapshot, if it is whole, and one has these bytes.
    pub fn take<M: Machine>(
        &mut self,
        alloc: Global,
        chunk: &Chunk<'_>,
    ) -> Result<Option<Packed<M>>, AllocError>
        ensures taken { OnOk result (self.new.assembly ≡ (taken self.old.assembly (piece_of chunk.now)).1) }
        ensures whole { IfOk result (IsWhole M.codec (taken self.old.assembly (piece_of chunk.now)).0) }
    {
        match self.assembly.take(chunk) {
            Ok(Some(bytes)) => find_snapshot(alloc, &bytes),
            Ok(None) => Ok(None),
            Err(TakeError::Refused(_)) => Ok(None),
            Err(TakeError::OutOfMemory) => Err(AllocError),
        }
    }

    /// The snapshot of this request is whole.
    pub fn complete(&mut self, message: &Message)
        ensures { self.new.assembly ≡ self.old.assembly }
    {
        self.completed = origin_of(message);
    }
}
