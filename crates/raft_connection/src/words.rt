//! What requests' words spell.

ghost use Rattle.std.specs.Prelude.{◌≡◌, take, not, IfOk};
ghost use Rattle.std.specs.List.{list_any};
ghost use Rattle.std.specs.Str.{str_eq_ignore_ascii_case};
ghost use Rattle.raft_connection.specs.Words.{told, is_no_sign, is_name};

use raft_state::Items;
use std::alloc::{AllocError, Global};

/// The most bytes that an error tells of a word (Redis, `addReplySubcommandSyntaxError`).
const TOLD: usize = 128;

/// Whether words are the same, in any case.
pub(crate) fn is_same_word(word: &[u8], other: &[u8]) -> bool
    ensures { result ≡ str_eq_ignore_ascii_case word.now other.now }
{
    word.eq_ignore_ascii_case(other)
}

/// The front of a word.
#[tactic(auto, using(std::proofs::lemmas::List::take_min))]
fn front(word: &[u8]) -> &[u8]
    ensures { result.now ≡ take TOLD word.now }
{
    &word[..TOLD.min(word.len())]
}

/// What an error tells of a word.
pub(crate) fn told(alloc: Global, word: &[u8]) -> Result<Items<u8>, AllocError>
    ensures { IfOk result (λ copied. copied ≡ told word.now) }
{
    Ok(Items::from_vec(Vec::from_slice(alloc, front(word))?))
}

/// Whether a byte may not stand in a client's name.
fn is_no_sign(byte: u8) -> bool
    ensures { result ≡ is_no_sign byte }
{
    byte < b'!' || byte > b'~'
}

/// Whether a byte of a word may not stand in a client's name.
fn has_no_sign(word: &[u8]) -> bool
    ensures { result ≡ list_any is_no_sign word.now }
{
    word.iter().any(|byte| is_no_sign(*byte))
}

/// Whether a word may be a client's name.
pub(crate) fn is_name(word: &[u8]) -> bool
    ensures { result ≡ is_name word.now }
{
    !has_no_sign(word)
}
