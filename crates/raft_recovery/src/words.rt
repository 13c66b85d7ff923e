//! What the words of a command line ask for: a value, and nodes.

ghost use Rattle.std.specs.Prelude.{◌≡◌, ◌++◌, map};
ghost use Rattle.std.specs.Option.{option_map};
ghost use Rattle.std.specs.String.{string_bytes};
ghost use Rattle.raft_schedule.specs.Line.{number, numbers};
ghost use Rattle.raft_recovery.specs.Tasks.{Gives, StatusOfWords, asked};

use crate::simulation::simulate_recovery;
use raft_schedule::schedule::parse_number;
use raft_store::Value;
use std::alloc::{AllocError, AllocFailed, Global};
use std::error::Error;
use std::fmt;
use std::io::{Read, Write};

/// What is asked for: a number, and the nodes that are to execute it, or none for all of them.
#[derive(Drop)]
struct Task {
    number: u64,
    up: Vec<u64>,
}

/// Why words ask for nothing.
#[derive(PartialEq, Eq, Debug, Drop)]
enum WordsError {
    /// There are none.
    NoWords,
    /// This one is no number.
    NoNumber(String),
    OutOfMemory,
}

impl fmt::Display for WordsError {
    ghost use Rattle.std.specs.Prelude.{Some};
    ghost use Rattle.raft_recovery.specs.Tasks.{words_text};

    ghost output = { λ error. Some (words_text error) };

    fn fmt<W: fmt::Write>(&self, f: &mut fmt::Formatter<W>) -> fmt::Result {
        match self {
            WordsError::NoWords => f.write_str("no number is given"),
            WordsError::NoNumber(word) => write!(
                f,
                "\"{word}\" is no number: numbers are decimal, without sign or leading zeros, below 2^64"
            ),
            WordsError::OutOfMemory => f.write_str("W5"),
        }
    }
}

impl Error for WordsError {}

impl From<AllocError> for WordsError {
    ghost use Rattle.std.specs.Prelude.{◌≡◌};
    ghost use Rattle.raft_recovery.specs.declared.words.WordsError.TheVariants.{OutOfMemory};

    ghost from_gives = { λ _ e. e ≡ OutOfMemory };

    fn from(_: AllocError) -> Self {
        WordsError::OutOfMemory
    }
}

impl<T: Drop> From<AllocFailed<T>> for WordsError {
    ghost use Rattle.std.specs.Prelude.{◌≡◌};
    ghost use Rattle.raft_recovery.specs.declared.words.WordsError.TheVariants.{OutOfMemory};

    ghost from_gives = { λ _ e. e ≡ OutOfMemory };

    fn from(_: AllocFailed<T>) -> Self {
        WordsError::OutOfMemory
    }
}

/// The number that a word is, as schedules have numbers.
fn read_number(word: &String) -> Result<u64, WordsError>
    ensures { Gives (λ n. n) result (number (string_bytes word.now)) }
{
    match parse_number(word.as_str()) {
        Some(number) => Ok(number),
        None => Err(WordsError::NoNumber(word.clone()?)),
    }
}

/// Appends the numbers that words are.
#[tactic(auto, unfolding(raft_schedule::specs::Line::numbers))]
fn push_numbers(words: &[String], into: &mut Vec<u64>) -> Result<(), WordsError>
    ensures { Gives (λ _. into.new.items) result (option_map (λ more. into.old.items ++ more) (numbers (map string_bytes words.now))) }
{
    match words {
        [] => Ok(()),
        [word, rest @ ..] => {
            let number = read_number(word)?;
            into.push(number)?;
            push_numbers(rest, into)
        }
    }
}

/// What words ask for.
fn read_task(alloc: Global, words: &[String]) -> Result<Task, WordsError>
    ensures { Gives (λ task. (task.number, task.up.items)) result (asked (map string_bytes words.now)) }
{
    let [word, ids @ ..] = words else {
        return Err(WordsError::NoWords);
    };
    let number = read_number(word)?;
    let mut up = Vec::new(alloc);
    push_numbers(ids, &mut up)?;
    Ok(Task { number, up })
}

/// Like `simulate_recovery`, for the words of a command line: the number that is to be executed, and the ids of the nodes, or none
/// for all of them. A word that is no number, as schedules have numbers, is refused with status 1 and named.
pub fn simulate_words<R: Read + Drop, W: Write + Drop, E: Write + Drop>(
    alloc: Global,
    words: &[String],
    input: R,
    output: W,
    errors: E,
) -> u8
    ensures { StatusOfWords (R.remaining input) (map string_bytes words.now) result }
{
    let mut errors = errors;
    match read_task(alloc, words) {
        Ok(task) => simulate_recovery(
            alloc,
            &task.up,
            &Value::Number(task.number),
            input,
            output,
            errors,
        ),
        Err(error) => {
            let _told = writeln!(errors, "{error}");
            1
        }
    }
}
