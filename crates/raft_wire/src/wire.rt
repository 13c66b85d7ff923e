//! What can be written as bytes and read from them.

ghost use Rattle.std.specs.Prelude.{◌≡◌, IfOk};
ghost use Rattle.raft_codec.specs.Codec.{Writes, Reads, IsFound};

use raft_codec::{DecodeError, Reader};
use std::alloc::{AllocError, Global};

/// What has a form in bytes.
pub trait Wire: Drop {
    ghost use Rattle.raft_codec.specs.Codec.{Codec, IsCodec};

    /// The form of each value.
    ghost codec: { Codec Self };

    /// Appends the value.
    fn write(&self, out: &mut Vec<u8>) -> Result<(), AllocError>
        ensures { Writes codec self.now result out.old.items out.new.items };

    /// Reads the value at the front.
    fn read(reader: &mut Reader<'_>) -> Result<Self, DecodeError>
        ensures { Reads codec result reader.old reader.new };

    /// What is written is read back, and nothing else is read.
    ghost is_codec: { IsCodec codec };
}

/// The value whose bytes these are: all of them.
///
/// Refuses bytes that are no value's, or more than one value's, by the fault and how many bytes are left from where it begins.
pub fn decode<T: Wire>(alloc: Global, bytes: &[u8]) -> Result<T, DecodeError>
    ensures written { IfOk result (λ value. T.codec.fits value × (bytes.now ≡ T.codec.bytes value)) }
    ensures read_back { (value : T) → T.codec.fits value → bytes.now ≡ T.codec.bytes value → IsFound result value }
{
    let mut reader = Reader::new(alloc, bytes);
    let value = T::read(&mut reader)?;
    reader.end()?;
    Ok(value)
}
