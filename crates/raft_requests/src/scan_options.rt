//! The options of SCAN.

ghost use Rattle.std.specs.Prelude.{◌≡◌, IfOk};
ghost use Rattle.raft_requests.specs.Refusals.{Gives};
ghost use Rattle.raft_requests.specs.ScanOptions.{cursor, positive, count, pattern, unsaid, with_option, scan_options};

use crate::refusal::{ParseError, Refusal};
use crate::words::{is_same_word, number};
use raft_machine::{ScanOptions, numbers};
use raft_state::Items;
use std::alloc::AllocError;

/// The cursor that a word is.
pub(crate) fn cursor(word: &[u8]) -> Result<u64, ParseError>
    ensures { Gives result (cursor word.now) }
{
    match numbers::natural(word) {
        Some(cursor) => Ok(cursor),
        None => Err(ParseError::Refused(Refusal::InvalidCursor)),
    }
}

/// A number of keys, of which there is one at least.
fn positive(number: i64) -> Result<u64, ParseError>
    ensures { Gives result (positive number) }
{
    if number > 0 {
        Ok(number.unsigned_abs())
    } else {
        Err(ParseError::Refused(Refusal::Syntax))
    }
}

/// The number of keys that a word is.
fn count(word: &[u8]) -> Result<u64, ParseError>
    ensures { Gives result (count word.now) }
{
    positive(number(word)?)
}

/// The pattern that a word is; `*` is none.
fn pattern(word: &Items<u8>) -> Result<Option<Items<u8>>, AllocError>
    ensures { IfOk result (λ pattern_now. pattern_now ≡ pattern word.now) }
{
    if word.as_slice() == b"*".as_slice() {
        Ok(None)
    } else {
        Ok(Some(word.copy()?))
    }
}

/// What was said, and an option: its name and what follows it.
#[tactic(auto, unfolding(crate::specs::ScanOptions::with_option))]
fn with_option(
    options: ScanOptions,
    name: &[u8],
    word: &Items<u8>,
) -> Result<ScanOptions, ParseError>
    ensures { Gives result (with_option options name.now word.now) }
{
    let ScanOptions {
        cursor,
        count: count_before,
        pattern: pattern_before,
        of_strings,
    } = options;
    if is_same_word(name, b"count") {
        return Ok(ScanOptions {
            cursor,
            count: count(word.as_slice())?,
            pattern: pattern_before,
            of_strings,
        });
    }
    if is_same_word(name, b"match") {
        return Ok(ScanOptions {
            cursor,
            count: count_before,
            pattern: pattern(word)?,
            of_strings,
        });
    }
    if is_same_word(name, b"type") {
        return Ok(ScanOptions {
            cursor,
            count: count_before,
            pattern: pattern_before,
            of_strings: is_same_word(word.as_slice(), b"string"),
        });
    }
    Err(ParseError::Refused(Refusal::Syntax))
}

/// The options that words spell, of a step that begins at a cursor.
#[tactic(auto, using(crate::proofs::Scanned::option_more, crate::proofs::Scanned::options_done, crate::proofs::Scanned::option_left))]
pub(crate) fn scan_options(cursor: u64, words: &[Items<u8>]) -> Result<ScanOptions, ParseError>
    ensures { Gives result (scan_options (unsaid cursor) words.now) }
{
    let mut options = ScanOptions {
        cursor,
        count: 10,
        pattern: None,
        of_strings: true,
    };
    let mut rest = words;
    while let [name, word, after @ ..] = rest {
        options = with_option(options, name.as_slice(), word)?;
        rest = after;
    }
    if rest.is_empty() {
        Ok(options)
    } else {
        Err(ParseError::Refused(Refusal::Syntax))
    }
}
