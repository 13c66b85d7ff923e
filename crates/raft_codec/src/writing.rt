//! Writes numbers and bytes.

ghost use Rattle.std.specs.Prelude.{◌≡◌};
ghost use Rattle.raft_codec.specs.Codec.{Writes, number, raw};

use std::alloc::AllocError;

/// A number: LEB128, in its shortest form.
#[tactic(auto, unfolding(crate::specs::Codec::number))]
pub fn write_number(out: &mut Vec<u8>, value: u64) -> Result<(), AllocError>
    ensures { Writes number value result out.old.items out.new.items }
{
    let mut rest = value;
    while rest >= 128 {
        out.push((rest % 128) as u8 + 128)?;
        rest /= 128;
    }
    out.push(rest as u8)?;
    Ok(())
}

/// Bytes as they are, behind their number.
#[tactic(auto, unfolding(crate::specs::Codec::raw))]
pub fn write_raw(out: &mut Vec<u8>, bytes: &[u8]) -> Result<(), AllocError>
    ensures { Writes raw bytes.now result out.old.items out.new.items }
{
    write_number(out, bytes.len() as u64)?;
    out.extend_from_slice(bytes)
}
