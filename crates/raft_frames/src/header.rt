//! The header of a log's file.

ghost use Rattle.std.specs.Prelude.{◌≡◌};

use crate::crc::crc32c;

/// The first bytes of each log.
pub(crate) const MAGIC: [u8; 8] = *b"wachelpo";

/// The format's version.
pub(crate) const VERSION: u32 = 1;

/// How many bytes a header has.
pub const HEADER_LEN: usize = 32;

/// Whose log it is.
#[derive(Clone, Copy, PartialEq, Eq, Debug)]
pub struct LogId {
    pub cluster: u64,
    pub node: u64,
}

impl LogId {
    ghost use Rattle.raft_frames.specs.Format.{fields, header, seed_of};

    /// The bytes of a header in front of its sum.
    fn fields(&self) -> [u8; 28]
        ensures { result ≡ fields self.now }
    {
        let mut fields = [0; 28];
        fields[..8].copy_from_slice(&MAGIC);
        fields[8..12].copy_from_slice(&VERSION.to_le_bytes());
        fields[12..20].copy_from_slice(&self.cluster.to_le_bytes());
        fields[20..].copy_from_slice(&self.node.to_le_bytes());
        fields
    }

    /// The sum of the header: the sum before the first frame.
    #[tactic(auto, unfolding(crate::specs::Format::seed_of))]
    pub(crate) fn seed(&self) -> u32
        ensures { result ≡ seed_of self.now }
    {
        crc32c(&self.fields())
    }

    /// What a log of this node begins with.
    pub fn header(&self) -> [u8; HEADER_LEN]
        ensures { result ≡ header self.now }
    {
        let mut header = [0; HEADER_LEN];
        header[..28].copy_from_slice(&self.fields());
        header[28..].copy_from_slice(&self.seed().to_le_bytes());
        header
    }
}
