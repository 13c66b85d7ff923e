//! The words behind a command's name: how many there are, and what they spell.

ghost use Rattle.std.specs.Prelude.{◌≡◌, ◌++◌, ◌==◌, [], take, IfOk, OnOk};
ghost use Rattle.std.specs.List.{position};
ghost use Rattle.std.specs.Str.{str_eq_ignore_ascii_case};
ghost use Rattle.raft_requests.specs.Refusals.{Gives};
ghost use Rattle.raft_requests.specs.Words.{is_end, in_one_line, c_string, without_ends, none, one, two, three, some, pairs, number};
ghost use Rattle.raft_requests.specs.Words.{told, args_told, unsupported, unknown};

use crate::command_name::CommandName;
use crate::refusal::{ParseError, Refusal};
use raft_machine::numbers;
use raft_state::Items;
use std::alloc::{AllocError, Global};

/// Whether words are the same, in any case.
pub(crate) fn is_same_word(word: &[u8], other: &[u8]) -> bool
    ensures { result ≡ str_eq_ignore_ascii_case word.now other.now }
{
    word.eq_ignore_ascii_case(other)
}

fn wrong_number(name: CommandName) -> ParseError
    ensures { result ≡ ParseError.Refused (Refusal.WrongNumberOfArguments name) }
{
    ParseError::Refused(Refusal::WrongNumberOfArguments(name))
}

/// No words.
pub(crate) fn none(name: CommandName, words: &[Items<u8>]) -> Result<(), ParseError>
    ensures { Gives result (none name words.now) }
{
    match words {
        [] => Ok(()),
        _ => Err(wrong_number(name)),
    }
}

/// One word.
#[tactic(auto, using(crate::proofs::Counts::one_is))]
pub(crate) fn one(name: CommandName, words: &[Items<u8>]) -> Result<Items<u8>, ParseError>
    ensures { Gives result (one name words.now) }
{
    if words.len() != 1 {
        return Err(wrong_number(name));
    }
    Ok(words[0].copy()?)
}

/// Two words.
#[tactic(auto, using(crate::proofs::Counts::two_are))]
pub(crate) fn two(
    name: CommandName,
    words: &[Items<u8>],
) -> Result<(Items<u8>, Items<u8>), ParseError>
    ensures { Gives result (two name words.now) }
{
    if words.len() != 2 {
        return Err(wrong_number(name));
    }
    Ok((words[0].copy()?, words[1].copy()?))
}

/// Three words.
#[tactic(auto, using(crate::proofs::Counts::three_are))]
pub(crate) fn three(
    name: CommandName,
    words: &[Items<u8>],
) -> Result<(Items<u8>, Items<u8>, Items<u8>), ParseError>
    ensures { Gives result (three name words.now) }
{
    if words.len() != 3 {
        return Err(wrong_number(name));
    }
    Ok((words[0].copy()?, words[1].copy()?, words[2].copy()?))
}

fn copies(alloc: Global, words: &[Items<u8>]) -> Result<Items<Items<u8>>, AllocError>
    ensures { IfOk result (λ copied. copied ≡ words.now) }
{
    let mut copied = Vec::with_capacity(alloc, words.len())?;
    for word in words {
        copied.push(word.copy()?)?;
    }
    Ok(Items::from_vec(copied))
}

/// One word or more.
pub(crate) fn some(
    alloc: Global,
    name: CommandName,
    words: &[Items<u8>],
) -> Result<Items<Items<u8>>, ParseError>
    ensures { Gives result (some name words.now) }
{
    match words {
        [] => Err(wrong_number(name)),
        _ => Ok(copies(alloc, words)?),
    }
}

/// One pair of words or more.
pub(crate) fn pairs(
    alloc: Global,
    name: CommandName,
    words: &[Items<u8>],
) -> Result<Items<(Items<u8>, Items<u8>)>, ParseError>
    ensures { Gives result (pairs name words.now) }
{
    if words.is_empty() || words.len() % 2 == 1 {
        return Err(wrong_number(name));
    }
    let mut pairs = Vec::with_capacity(alloc, words.len() / 2)?;
    let mut rest = words;
    while let [key, value, after @ ..] = rest {
        pairs.push((key.copy()?, value.copy()?))?;
        rest = after;
    }
    Ok(Items::from_vec(pairs))
}

/// The number that a word is.
pub(crate) fn number(word: &[u8]) -> Result<i64, ParseError>
    ensures { Gives result (number word.now) }
{
    match numbers::integer(word) {
        Some(number) => Ok(number),
        None => Err(ParseError::Refused(Refusal::NotAnInteger)),
    }
}

/// The most bytes that an error tells of a word, and of arguments (Redis, commandCheckExistence).
const TOLD: usize = 128;

/// Whether a byte ends a line.
fn is_end(byte: u8) -> bool
    ensures { result ≡ is_end byte }
{
    byte == b'\r' || byte == b'\n'
}

/// A byte as a line tells it.
fn in_one_line(byte: u8) -> u8
    ensures { result ≡ in_one_line byte }
{
    if is_end(byte) { b' ' } else { byte }
}

/// Up to so many bytes of a word.
#[tactic(auto, using(std::proofs::lemmas::List::take_min))]
fn front(word: &[u8], most: usize) -> &[u8]
    ensures { result.now ≡ take most word.now }
{
    &word[..most.min(word.len())]
}

/// Adds a word as an error tells it: up to a byte of 0, and in one line.
fn push_told(text: &mut Vec<u8>, word: &[u8]) -> Result<(), AllocError>
    ensures { OnOk result (text.new.items ≡ text.old.items ++ told word.now) }
{
    for byte in word {
        if *byte == 0 {
            return Ok(());
        }
        text.push(in_one_line(*byte))?;
    }
    Ok(())
}

/// The arguments as an error tells them: the first of them, each in quotes.
fn args_told(alloc: Global, args: &[Items<u8>]) -> Result<Vec<u8>, AllocError>
    ensures { IfOk result (λ text. text.items ≡ args_told [] args.now) }
{
    let mut text = Vec::new(alloc);
    for arg in args {
        let left = TOLD.saturating_sub(text.len());
        if left == 0 {
            return Ok(text);
        }
        text.push(b'\'')?;
        push_told(&mut text, front(arg.as_slice(), left))?;
        text.extend_from_slice(b"' ")?;
    }
    Ok(text)
}

/// Where a byte is 0 first.
fn first_zero(word: &[u8]) -> Option<usize>
    ensures { result ≡ position (λ b. b == 0) word.now }
{
    word.iter().position(|byte| *byte == 0)
}

/// The bytes up to one of 0, where C ends a string.
fn c_string(word: &[u8]) -> &[u8]
    ensures { result.now ≡ c_string word.now }
{
    match first_zero(word) {
        Some(end) => &word[..end],
        None => word,
    }
}

/// Bytes without the ends of lines at their end.
fn without_ends(word: &[u8]) -> &[u8]
    ensures { result.now ≡ without_ends word.now }
{
    let mut rest = word;
    while let Some((last, front)) = rest.split_last() {
        if !is_end(*last) {
            return rest;
        }
        rest = front;
    }
    rest
}

/// What an error tells of an option that there isn't.
pub(crate) fn unsupported(alloc: Global, option: &[u8]) -> Result<Items<u8>, AllocError>
    ensures { IfOk result (λ text. text ≡ unsupported option.now) }
{
    let mut text = Vec::new(alloc);
    push_told(&mut text, without_ends(c_string(option)))?;
    Ok(Items::from_vec(text))
}

/// What an error tells of a command that there isn't.
pub(crate) fn unknown(
    alloc: Global,
    name: &[u8],
    args: &[Items<u8>],
) -> Result<Items<u8>, AllocError>
    ensures { IfOk result (λ text. text ≡ unknown name.now args.now) }
{
    let mut text = Vec::from_slice(alloc, b"'")?;
    push_told(&mut text, front(name, TOLD))?;
    text.extend_from_slice(b"', with args beginning with: ")?;
    text.extend_from_slice(&args_told(alloc, args)?)?;
    Ok(Items::from_vec(text))
}
