//! Requests from the bytes that a client has sent so far.

ghost use Rattle.std.specs.Prelude.{◌≡◌, ◌≤◌, ◌+◌, ◌==◌, ◌<◌, IfOk, IfSome, filter, length, nat_lt, position, take};
ghost use Rattle.std.specs.List.{list_any, slice_split};
ghost use Rattle.raft_resp.specs.Requests.{array_at, before, body_at, count_of, end_line, inline_at, inline_words, is_quote, is_space};
ghost use Rattle.raft_resp.specs.Requests.{length_at, length_of, line_at, request_at, word_at, words_at};
ghost use Rattle.raft_resp.specs.Reading.{Answers, Gives, field, texts, words_field};

use crate::error::{Fault, RequestError, Stop};
use raft_machine::numbers;
use std::alloc::{AllocError, Global};

/// How long a line may be, in bytes: a number of words, a length, or an inline request (Redis, `PROTO_INLINE_MAX_SIZE`).
pub const MAX_LINE: usize = 65536;

/// How much a request may ask for.
#[derive(Clone, Copy, PartialEq, Eq, Debug)]
pub struct Limits {
    /// The most words of a request.
    pub words: u64,
    /// The most bytes of a word.
    pub word: u64,
}

/// A request.
#[derive(Debug, Drop)]
pub struct Request<'a> {
    /// Its words: a command's name, and its arguments. There may be none; then there is nothing to answer.
    pub words: Vec<&'a [u8]>,
    /// The bytes behind it.
    pub rest: &'a [u8],
}

/// The first bytes, at most so many.
fn first(bytes: &[u8], len: usize) -> &[u8]
    ensures first { result.now ≡ take len bytes.now }
    ensures shorter { length result.now ≤ length bytes.now }
{
    bytes.get(..len).unwrap_or(bytes)
}

/// The place of the first such byte.
fn place_of(mark: u8, bytes: &[u8]) -> Option<usize>
    ensures place { result ≡ position (λ b. b == mark) bytes.now }
    ensures within { IfSome result (λ i. i < length bytes.now) }
{
    bytes.iter().position(|byte| *byte == mark)
}

/// What stands before the first byte that ends a line, and what stands behind that byte.
fn before(mark: u8, long: Fault, bytes: &[u8]) -> Result<(&[u8], &[u8]), Stop>
    ensures { Gives field result (before mark long bytes.now) }
{
    match place_of(mark, first(bytes, MAX_LINE + 1)) {
        Some(len) => {
            let (text, behind) = bytes.split_at(len);
            let (_, rest) = behind.split_at(1);
            Ok((text, rest))
        }
        None if bytes.len() > MAX_LINE => Err(Stop::Malformed(long)),
        None => Err(Stop::Unfinished),
    }
}

/// Behind CR stands LF.
fn end_line<'a>(text: &'a [u8], bytes: &'a [u8]) -> Result<(&'a [u8], &'a [u8]), Stop>
    ensures { Gives field result (end_line text.now bytes.now) }
{
    match bytes.split_first() {
        None => Err(Stop::Unfinished),
        Some((b'\n', rest)) => Ok((text, rest)),
        Some(_) => Err(Stop::Malformed(Fault::End)),
    }
}

/// The line at the front, without its end, and the bytes behind it.
#[tactic(auto, unfolding(crate::specs::Requests::line_at))]
fn line_at(long: Fault, bytes: &[u8]) -> Result<(&[u8], &[u8]), Stop>
    ensures { Gives field result (line_at long bytes.now) }
{
    let (text, rest) = before(b'\r', long, bytes)?;
    end_line(text, rest)
}

/// The number of bytes of a word, at most so many.
fn length_of(most: u64, line: &[u8]) -> Result<usize, Stop>
    ensures { Gives (λ n. n) result (length_of most line.now) }
{
    match numbers::natural(line) {
        Some(len) if len <= most => Ok(len as usize),
        _ => Err(Stop::Malformed(Fault::Length)),
    }
}

#[tactic(auto, unfolding(crate::specs::Requests::length_at))]
fn length_at(most: u64, bytes: &[u8]) -> Result<(usize, &[u8]), Stop>
    ensures { Gives (λ x. (x.0, x.1.now)) result (length_at most bytes.now) }
{
    let (line, rest) = line_at(Fault::LongLength, bytes)?;
    Ok((length_of(most, line)?, rest))
}

/// So many bytes, with CR and LF behind them, and the bytes behind these.
#[tactic(auto, unfolding(crate::specs::Requests::body_at))]
fn body_at(len: usize, bytes: &[u8]) -> Result<(&[u8], &[u8]), Stop>
    ensures { Gives field result (body_at len bytes.now) }
{
    if bytes.len() < len {
        return Err(Stop::Unfinished);
    }
    let (body, behind) = bytes.split_at(len);
    match behind {
        [] | [b'\r'] => Err(Stop::Unfinished),
        [b'\r', b'\n', rest @ ..] => Ok((body, rest)),
        _ => Err(Stop::Malformed(Fault::End)),
    }
}

/// The word at the front, and the bytes behind it.
#[tactic(auto, unfolding(crate::specs::Requests::word_at))]
fn word_at(most: u64, bytes: &[u8]) -> Result<(&[u8], &[u8]), Stop>
    ensures { Gives field result (word_at most bytes.now) }
{
    match bytes.split_first() {
        None => Err(Stop::Unfinished),
        Some((b'$', rest)) => {
            let (len, rest) = length_at(most, rest)?;
            body_at(len, rest)
        }
        Some((mark, _)) => Err(Stop::Malformed(Fault::Mark(char::from(*mark)))),
    }
}

/// So many words, and the bytes behind them.
fn words_at<'a>(
    alloc: Global,
    most: u64,
    count: usize,
    bytes: &'a [u8],
) -> Result<(Vec<&'a [u8]>, &'a [u8]), Stop>
    ensures { Gives words_field result (words_at most count bytes.now) }
{
    let mut words = Vec::new(alloc);
    let mut rest = bytes;
    for _ in 0..count {
        let (word, behind) = word_at(most, rest)?;
        words.push(word)?;
        rest = behind;
    }
    Ok((words, rest))
}

/// The number of words, at most so many, that a line asks for; a negative number is none.
fn count_of(most: u64, line: &[u8]) -> Result<usize, Stop>
    ensures { Gives (λ n. n) result (count_of most line.now) }
{
    let Some(count) = numbers::integer(line) else {
        return Err(Stop::Malformed(Fault::Count));
    };
    if count <= 0 {
        return Ok(0);
    }
    let count = count.unsigned_abs();
    if count <= most {
        Ok(count as usize)
    } else {
        Err(Stop::Malformed(Fault::Count))
    }
}

/// The words of an array behind its mark, and the bytes behind it.
#[tactic(auto, unfolding(crate::specs::Requests::array_at))]
fn array_at<'a>(
    alloc: Global,
    limits: &Limits,
    bytes: &'a [u8],
) -> Result<(Vec<&'a [u8]>, &'a [u8]), Stop>
    ensures { Gives words_field result (array_at limits.now bytes.now) }
{
    let (line, rest) = line_at(Fault::LongCount, bytes)?;
    let count = count_of(limits.words, line)?;
    words_at(alloc, limits.word, count, rest)
}

fn is_space(byte: u8) -> bool
    ensures { result ≡ is_space byte }
{
    byte == b' ' || (b'\t'..=b'\r').contains(&byte)
}

fn is_quote(byte: u8) -> bool
    ensures { result ≡ is_quote byte }
{
    byte == b'"' || byte == b'\''
}

/// What stands between the spaces of a line.
fn parts_of<'a>(alloc: Global, line: &'a [u8]) -> Result<Vec<&'a [u8]>, AllocError>
    ensures { IfOk result (λ parts. texts parts.items ≡ slice_split is_space line.now) }
{
    line.split(|byte| is_space(*byte)).collect(alloc)
}

fn drop_empty(parts: &mut Vec<&[u8]>)
    ensures { texts parts.new.items ≡ filter (λ part. nat_lt 0 (length part)) (texts parts.old.items) }
{
    parts.retain(|part| !part.is_empty());
}

fn has_quote(line: &[u8]) -> bool
    ensures { result ≡ list_any is_quote line.now }
{
    line.iter().any(|byte| is_quote(*byte))
}

/// The words of a line, which spaces separate.
fn words_of<'a>(alloc: Global, line: &'a [u8]) -> Result<Vec<&'a [u8]>, Stop>
    ensures { Gives (λ words. texts words.items) result (inline_words line.now) }
{
    if has_quote(line) {
        return Err(Stop::Malformed(Fault::Quotes));
    }
    let mut words = parts_of(alloc, line)?;
    drop_empty(&mut words);
    Ok(words)
}

/// The words of the line at the front, which LF ends, and the bytes behind it.
#[tactic(auto, unfolding(crate::specs::Requests::inline_at))]
fn inline_at<'a>(alloc: Global, bytes: &'a [u8]) -> Result<(Vec<&'a [u8]>, &'a [u8]), Stop>
    ensures { Gives words_field result (inline_at bytes.now) }
{
    let (line, rest) = before(b'\n', Fault::LongLine, bytes)?;
    Ok((words_of(alloc, line)?, rest))
}

fn request_at<'a>(
    alloc: Global,
    limits: &Limits,
    bytes: &'a [u8],
) -> Result<(Vec<&'a [u8]>, &'a [u8]), Stop>
    ensures { Gives words_field result (request_at limits.now bytes.now) }
{
    match bytes.split_first() {
        None => Err(Stop::Unfinished),
        Some((b'*', rest)) => array_at(alloc, limits, rest),
        Some(_) => inline_at(alloc, bytes),
    }
}

/// The request that a client's bytes begin with, and the bytes behind it; none if more bytes have to come first. It is an
/// array of words, each behind its length, or a line of words that spaces separate, without quotes.
///
/// It copies no word, and takes memory only for its list of words, as many as there are. Refusals:
///
/// - [`RequestError::Protocol`]: what stands there is no request. Redis words each [`Fault`], and closes the connection.
/// - [`RequestError::OutOfMemory`].
///
/// Source: Redis' protocol specification, "Sending commands to a Redis server" and "Inline commands".
pub fn read_request<'a>(
    alloc: Global,
    limits: &Limits,
    bytes: &'a [u8],
) -> Result<Option<Request<'a>>, RequestError>
    ensures { Answers result (request_at limits.now bytes.now) }
{
    match request_at(alloc, limits, bytes) {
        Ok((words, rest)) => Ok(Some(Request { words, rest })),
        Err(Stop::Unfinished) => Ok(None),
        Err(Stop::OutOfMemory) => Err(RequestError::OutOfMemory),
        Err(Stop::Malformed(fault)) => Err(RequestError::Protocol(fault)),
    }
}
