//! Numbers as texts.

ghost use Rattle.std.specs.Prelude.{◌≡◌, ◌<◌, ◌^◌, IfOk};
ghost use Rattle.std.specs.Fmt.{signed_decimal};
ghost use Rattle.raft_machine.specs.Numbers.{natural_of, integer_of, positive, negative};

use itoa::Buffer;
use raft_state::Items;
use std::alloc::{AllocError, Global};

/// The number below 2^64 whose text this is: the digits that it is printed as, and no others.
pub fn natural(bytes: &[u8]) -> Option<u64>
    ensures { result ≡ natural_of bytes.now }
{
    let Ok(text) = str::from_utf8(bytes) else {
        return None;
    };
    match text.parse::<u64>() {
        Ok(number) => {
            let mut buffer = Buffer::new();
            if buffer.format(number).as_bytes() == bytes {
                Some(number)
            } else {
                None
            }
        }
        Err(_) => None,
    }
}

fn positive(number: u64) -> Option<i64>
    ensures { result ≡ positive number }
{
    0i64.checked_add_unsigned(number)
}

fn negative(number: u64) -> Option<i64>
    ensures { result ≡ negative number }
{
    if number == 0 {
        None
    } else {
        0i64.checked_sub_unsigned(number)
    }
}

/// The number of 64 bits with a sign whose text this is: what it is printed as, and nothing else (Redis, string2ll).
#[tactic(auto, unfolding(crate::specs::Numbers::integer_of))]
pub fn integer(bytes: &[u8]) -> Option<i64>
    ensures { result ≡ integer_of bytes.now }
{
    match bytes {
        [] => None,
        [first, digits @ ..] => {
            if *first == b'-' {
                negative(natural(digits)?)
            } else {
                positive(natural(bytes)?)
            }
        }
    }
}

/// A number's text.
pub fn text(alloc: Global, number: i64) -> Result<Items<u8>, AllocError>
    ensures { IfOk result (λ text. text ≡ signed_decimal number) }
{
    let mut buffer = Buffer::new();
    let bytes = buffer.format(number).as_bytes();
    Ok(Items::from_vec(Vec::from_slice(alloc, bytes)?))
}
