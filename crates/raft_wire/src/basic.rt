//! Numbers, flags, optional values and lists.

ghost use Rattle.std.specs.Prelude.{◌≡◌};
ghost use Rattle.raft_codec.specs.Codec.{Writes, list};

use crate::wire::Wire;
use raft_codec::{DecodeError, Reader, write_number};
use raft_state::Items;
use std::alloc::AllocError;

/// How many items, and each.
#[tactic(auto, unfolding(raft_codec::specs::Codec::list))]
pub fn write_items<T: Wire>(out: &mut Vec<u8>, items: &[T]) -> Result<(), AllocError>
    ensures { Writes (list T.codec) items.now result out.old.items out.new.items }
{
    write_number(out, items.len() as u64)?;
    for item in items {
        item.write(out)?;
    }
    Ok(())
}

impl Wire for u64 {
    ghost use Rattle.raft_codec.specs.Codec.{number};
    ghost use Rattle.raft_codec.specs.CodecLaws.{number_is};

    ghost codec = { number };

    ghost is_codec = { number_is };

    fn write(&self, out: &mut Vec<u8>) -> Result<(), AllocError> {
        write_number(out, *self)
    }

    fn read(reader: &mut Reader<'_>) -> Result<u64, DecodeError> {
        reader.number()
    }
}

#[tactic(auto, unfolding(raft_codec::specs::Codec::flag))]
impl Wire for bool {
    ghost use Rattle.raft_codec.specs.Codec.{flag};
    ghost use Rattle.raft_codec.specs.CodecLaws.{flag_is};

    ghost codec = { flag };

    ghost is_codec = { flag_is };

    fn write(&self, out: &mut Vec<u8>) -> Result<(), AllocError> {
        out.push(*self as u8)?;
        Ok(())
    }

    fn read(reader: &mut Reader<'_>) -> Result<bool, DecodeError> {
        match reader.tag()? {
            0 => Ok(false),
            1 => Ok(true),
            _ => Err(reader.unknown_tag()),
        }
    }
}

#[tactic(auto, unfolding(raft_codec::specs::Codec::optional))]
impl<T: Wire> Wire for Option<T> {
    ghost use Rattle.raft_codec.specs.Codec.{optional};
    ghost use Rattle.raft_codec.specs.CodecLaws.{optional_is};

    ghost codec = { optional T.codec };

    ghost is_codec = { optional_is T.codec T.is_codec };

    fn write(&self, out: &mut Vec<u8>) -> Result<(), AllocError> {
        match self {
            None => {
                out.push(0)?;
                Ok(())
            }
            Some(value) => {
                out.push(1)?;
                value.write(out)
            }
        }
    }

    fn read(reader: &mut Reader<'_>) -> Result<Option<T>, DecodeError> {
        match reader.tag()? {
            0 => Ok(None),
            1 => Ok(Some(T::read(reader)?)),
            _ => Err(reader.unknown_tag()),
        }
    }
}

#[tactic(auto, unfolding(raft_codec::specs::Codec::list))]
impl<T: Wire> Wire for Items<T> {
    ghost use Rattle.raft_codec.specs.Codec.{list};
    ghost use Rattle.raft_codec.specs.CodecLaws.{list_is};

    ghost codec = { list T.codec };

    ghost is_codec = { list_is T.codec T.is_codec };

    fn write(&self, out: &mut Vec<u8>) -> Result<(), AllocError> {
        write_items(out, self.as_slice())
    }

    fn read(reader: &mut Reader<'_>) -> Result<Items<T>, DecodeError> {
        let count = reader.length()?;
        let mut items = Vec::with_capacity(reader.allocator(), reader.room(count))?;
        for _ in 0..count {
            items.push(T::read(reader)?)?;
        }
        Ok(Items::from_vec(items))
    }
}
