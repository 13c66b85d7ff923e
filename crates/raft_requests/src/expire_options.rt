//! The options of EXPIRE.

ghost use Rattle.std.specs.Prelude.{◌≡◌, not, find, codes};
ghost use Rattle.std.specs.List.{list_any};
ghost use Rattle.std.specs.Option.{option_copied};
ghost use Rattle.raft_requests.specs.ExpireOptions.{is_option, compatible, expire_condition};
ghost use Rattle.raft_requests.specs.Options.{is};
ghost use Rattle.raft_requests.specs.Refusals.{Gives};

use crate::refusal::{ParseError, Refusal};
use crate::words::{is_same_word, unsupported};
use raft_machine::ExpireCondition;
use raft_state::Items;
use std::alloc::Global;

/// Whether a word is an option, in any case.
#[tactic(auto, unfolding(crate::specs::ExpireOptions::is_option))]
fn is_option(word: &[u8]) -> bool
    ensures { result ≡ is_option word.now }
{
    is_same_word(word, b"nx")
        || is_same_word(word, b"xx")
        || is_same_word(word, b"gt")
        || is_same_word(word, b"lt")
}

/// Whether an option is among words, in any case.
fn has(words: &[Items<u8>], option: &[u8]) -> bool
    ensures { result ≡ list_any (is option.now) words.now }
{
    words
        .iter()
        .any(|word| is_same_word(word.as_slice(), option))
}

/// The first of words that is no option.
fn other(words: &[Items<u8>]) -> Option<&Items<u8>>
    ensures { option_copied result ≡ find (λ w. not (is_option w)) words.now }
{
    words.iter().find(|word| !is_option(word.as_slice()))
}

/// What the options say of which there are these.
fn compatible(nx: bool, xx: bool, gt: bool, lt: bool) -> Result<ExpireCondition, ParseError>
    ensures { Gives result (compatible nx xx gt lt) }
{
    if nx && (xx || gt || lt) {
        return Err(ParseError::Refused(Refusal::IncompatibleNx));
    }
    if gt && lt {
        return Err(ParseError::Refused(Refusal::IncompatibleGtLt));
    }
    Ok(match (nx, xx, gt, lt) {
        (true, _, _, _) => ExpireCondition::IfPersistent,
        (_, _, true, _) => ExpireCondition::IfLater,
        (_, true, _, true) => ExpireCondition::IfVolatileAndEarlier,
        (_, false, _, true) => ExpireCondition::IfEarlier,
        (_, true, _, false) => ExpireCondition::IfVolatile,
        (_, false, _, false) => ExpireCondition::Always,
    })
}

/// The condition that words spell.
#[tactic(auto, unfolding(crate::specs::ExpireOptions::expire_condition))]
pub(crate) fn condition(alloc: Global, words: &[Items<u8>]) -> Result<ExpireCondition, ParseError>
    ensures { Gives result (expire_condition words.now) }
{
    if let Some(word) = other(words) {
        let told = unsupported(alloc, word.as_slice())?;
        return Err(ParseError::Refused(Refusal::UnsupportedOption(told)));
    }
    compatible(
        has(words, b"nx"),
        has(words, b"xx"),
        has(words, b"gt"),
        has(words, b"lt"),
    )
}
