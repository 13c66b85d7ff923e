//! What has a form in bytes: numbers, bytes, optional values and lists.

ghost use Rattle.std.specs.Prelude.{◌≡◌};
ghost use Rattle.raft_codec.specs.Codec.{Writes, Reads, list};

use raft_codec::{DecodeError, Reader, write_number, write_raw};
use raft_state::Items;
use std::alloc::AllocError;

/// What has a form in bytes.
pub(crate) trait Form: Drop {
    ghost use Rattle.raft_codec.specs.Codec.{Codec};

    /// The form of each value.
    ghost codec: { Codec Self };

    /// Appends the value.
    fn write(&self, out: &mut Vec<u8>) -> Result<(), AllocError>
        ensures { Writes codec self.now result out.old.items out.new.items };

    /// Reads the value at the front.
    fn read(reader: &mut Reader<'_>) -> Result<Self, DecodeError>
        ensures { Reads codec result reader.old reader.new };
}

/// How many items, and each.
#[tactic(auto, unfolding(raft_codec::specs::Codec::list))]
pub(crate) fn write_items<T: Form>(out: &mut Vec<u8>, items: &[T]) -> Result<(), AllocError>
    ensures { Writes (list T.codec) items.now result out.old.items out.new.items }
{
    write_number(out, items.len() as u64)?;
    for item in items {
        item.write(out)?;
    }
    Ok(())
}

/// Items behind their number.
#[tactic(auto, unfolding(raft_codec::specs::Codec::list))]
pub(crate) fn read_items<T: Form>(reader: &mut Reader<'_>) -> Result<Items<T>, DecodeError>
    ensures { Reads (list T.codec) result reader.old reader.new }
{
    let count = reader.length()?;
    let mut items = Vec::with_capacity(reader.allocator(), reader.room(count))?;
    for _ in 0..count {
        items.push(T::read(reader)?)?;
    }
    Ok(Items::from_vec(items))
}

impl Form for Items<u8> {
    ghost use Rattle.raft_codec.specs.Codec.{raw};

    ghost codec = { raw };

    fn write(&self, out: &mut Vec<u8>) -> Result<(), AllocError> {
        write_raw(out, self.as_slice())
    }

    fn read(reader: &mut Reader<'_>) -> Result<Items<u8>, DecodeError> {
        Ok(Items::from_vec(reader.bytes()?))
    }
}

#[tactic(auto, unfolding(raft_codec::specs::Codec::optional))]
impl<T: Form> Form for Option<T> {
    ghost use Rattle.raft_codec.specs.Codec.{optional};

    ghost codec = { optional T.codec };

    fn write(&self, out: &mut Vec<u8>) -> Result<(), AllocError> {
        match self {
            None => {
                out.push(0)?;
                Ok(())
            }
            Some(value) => {
                out.push(1)?;
                value.write(out)
            }
        }
    }

    fn read(reader: &mut Reader<'_>) -> Result<Option<T>, DecodeError> {
        match reader.tag()? {
            0 => Ok(None),
            1 => Ok(Some(T::read(reader)?)),
            _ => Err(reader.unknown_tag()),
        }
    }
}
