//! What a text says.

ghost use Rattle.std.specs.Prelude.{◌≡◌, IfOk};
ghost use Rattle.raft_schedule.specs.Line.{begins, words};
ghost use Rattle.raft_schedule.specs.Reading.{texts};

use crate::error::TextError;
use hex::FromHexError;
use raft_answers::Operation;
use raft_cluster::raft_core::Config;
use raft_cluster::{Action, FIRST_LOAD_TOKEN};
use raft_node::given::Given;
use raft_schedule::schedule::{Language, Schedule, parse_number, parse_schedule};
use raft_state::Items;
use std::alloc::{AllocError, Global};

/// What a text says.
#[derive(Drop)]
pub struct Plan {
    pub given: Given,
    pub config: Config,
    /// The first line, counted from 1, that is an action's; the greatest number if there is none.
    pub body: u64,
    pub actions: Vec<Action>,
}

/// What a line says.
#[derive(Drop)]
enum Line {
    /// Nothing: it is empty, or a comment.
    Nothing,
    /// The line `language 2`.
    Language,
    /// Another line of a schedule's head.
    Head,
    /// A limit, which was set.
    Limit,
    Does(Action),
    Bad,
}

/// A request's token: those above are of loads.
fn parse_token(word: &str) -> Option<u64> {
    let token = parse_number(word)?;
    if token < FIRST_LOAD_TOKEN {
        Some(token)
    } else {
        None
    }
}

/// Whether a word begins a comment.
fn begins_comment(word: &str) -> bool
    ensures { result ≡ begins 35 word.now }
{
    word.starts_with('#')
}

/// The words of a line, separated by single spaces, before a comment.
pub(crate) fn split_words(alloc: Global, line: &str) -> Result<Vec<&str>, AllocError>
    ensures { IfOk result (λ parts. texts parts.items ≡ words Language.Second line.now) }
{
    line.split(' ')
        .take_while(|word| !begins_comment(word))
        .collect(alloc)
}

/// Bytes as `x` and two hexadecimal digits each.
fn parse_bytes(alloc: Global, word: &str) -> Result<Option<Items<u8>>, TextError> {
    let Some(digits) = word.strip_prefix('x') else {
        return Ok(None);
    };
    match hex::decode(alloc, digits) {
        Ok(bytes) => Ok(Some(Items::from_vec(bytes))),
        Err(FromHexError::OutOfMemory) => Err(TextError::OutOfMemory),
        Err(_) => Ok(None),
    }
}

/// A value: bytes, or a number as its eight bytes, the lowest first.
fn parse_value(alloc: Global, word: &str) -> Result<Option<Items<u8>>, TextError> {
    match parse_number(word) {
        Some(number) => Ok(Some(Items::from_vec(Vec::from_slice(alloc, &number.to_le_bytes())?))),
        None => parse_bytes(alloc, word),
    }
}

/// The ids that words are.
fn parse_ids(alloc: Global, words: &[&str]) -> Result<Option<Items<u64>>, AllocError> {
    let mut ids = Items::new(alloc);
    for word in words {
        match parse_number(word) {
            Some(id) => ids.push(id)?,
            None => return Ok(None),
        }
    }
    Ok(Some(ids))
}

/// Voters, and behind `learners` learners.
fn parse_members(alloc: Global, id: u64, words: &[&str]) -> Result<Option<Action>, AllocError> {
    let count = words
        .iter()
        .position(|word| *word == "learners")
        .unwrap_or(words.len());
    let (voters, rest) = words.split_at(count.min(words.len()));
    let learners = match rest {
        [_, learners @ ..] => parse_ids(alloc, learners)?,
        [] => Some(Items::new(alloc)),
    };
    match (parse_ids(alloc, voters)?, learners) {
        (Some(voters), Some(learners)) => Ok(Some(Action::Members {
            id,
            voters,
            learners,
        })),
        _ => Ok(None),
    }
}

fn parse_one(name: &str, number: u64) -> Option<Action> {
    match name {
        "start" => Some(Action::Start(number)),
        "init" => Some(Action::Init(number)),
        "write" => Some(Action::Write(number)),
        "flush" => Some(Action::Flush(number)),
        "deliver" => Some(Action::Deliver(number)),
        "cut" => Some(Action::Cut(number)),
        "heal" => Some(Action::Heal(number)),
        "checkpoint" => Some(Action::Checkpoint(number)),
        "take-over" => Some(Action::TakeOver(number)),
        "give-up" => Some(Action::GiveUp(number)),
        "run" => Some(Action::Run(number)),
        _ => None,
    }
}

fn parse_two(name: &str, id: u64, second: &str) -> Option<Action> {
    match name {
        "read" => Some(Action::Request {
            id,
            token: parse_token(second)?,
            operation: Operation::Read,
        }),
        "ask" => Some(Action::Ask {
            id,
            token: parse_token(second)?,
        }),
        "corrupt" => Some(Action::Corrupt {
            id,
            position: parse_number(second)?,
        }),
        _ => None,
    }
}

/// An action of numbers alone.
fn parse_numbers(words: &[&str]) -> Option<Action> {
    match words {
        ["deliver", "all"] => Some(Action::DeliverAll),
        ["crash", id, "at", bytes] => Some(Action::Crash {
            id: parse_number(id)?,
            bytes: parse_number(bytes)?,
        }),
        ["checkpoint", id, "crash"] => Some(Action::CrashInCheckpoint(parse_number(id)?)),
        ["tick", id, elapsed, random] => Some(Action::Tick {
            id: parse_number(id)?,
            elapsed: parse_number(elapsed)?,
            random: parse_number(random)?,
        }),
        ["load", id, count, bytes, waiting] => Some(Action::Load {
            id: parse_number(id)?,
            count: parse_number(count)?,
            bytes: parse_number(bytes)?,
            waiting: parse_number(waiting)?,
        }),
        [name, id] => parse_one(name, parse_number(id)?),
        [name, id, second] => parse_two(name, parse_number(id)?, second),
        _ => None,
    }
}

/// A request of these bytes.
fn parse_request(
    alloc: Global,
    id: &str,
    token: &str,
    value: &str,
) -> Result<Option<Action>, TextError> {
    match (
        parse_number(id),
        parse_token(token),
        parse_value(alloc, value)?,
    ) {
        (Some(id), Some(token), Some(bytes)) => Ok(Some(Action::Request {
            id,
            token,
            operation: Operation::Write(bytes),
        })),
        _ => Ok(None),
    }
}

/// What a stranger's bytes are.
fn parse_receive(alloc: Global, id: &str, bytes: &str) -> Result<Option<Action>, TextError> {
    match (parse_number(id), parse_bytes(alloc, bytes)?) {
        (Some(id), Some(bytes)) => Ok(Some(Action::Receive { id, bytes })),
        _ => Ok(None),
    }
}

/// The action of a line, if it is one.
fn parse_action(alloc: Global, words: &[&str]) -> Result<Option<Action>, TextError> {
    match words {
        ["request", id, token, value] => parse_request(alloc, id, token, value),
        ["receive", id, bytes] => parse_receive(alloc, id, bytes),
        ["members", id, rest @ ..] => match parse_number(id) {
            Some(id) => Ok(parse_members(alloc, id, rest)?),
            None => Ok(None),
        },
        _ => Ok(parse_numbers(words)),
    }
}

/// Sets a limit of clients, or of peers; whether there is one with this name.
fn set_limit(name: &str, number: u64, config: &mut Config) -> bool {
    match name {
        "value" => config.limits.value_bytes = number as usize,
        "waiting" => config.limits.waiting_bytes = number as usize,
        "requests" => config.limits.requests = number as usize,
        "batch" => config.limits.batch_bytes = number as usize,
        "frame" => config.peers.frame_bytes = number as usize,
        "part" => config.peers.part_bytes = number as usize,
        "snapshot" => config.peers.snapshot_bytes = number,
        "unwritten" => config.peers.unwritten_bytes = number as usize,
        "jump" => config.peers.term_jump = number,
        _ => return false,
    }
    true
}

/// Sets a span of time, or a limit; whether there is one with this name.
fn set(name: &str, number: u64, config: &mut Config) -> bool {
    match name {
        "spread" => config.election_spread = number,
        "heartbeat" => config.heartbeat_interval = number,
        "patience" => config.patience = number,
        "timeout" => config.request_timeout = number,
        "catch-up" => config.catch_up = number,
        "log" => config.log_bytes = number,
        _ => return set_limit(name, number, config),
    }
    true
}

/// A limit of a line is set.
fn read_limit(name: &str, number: &str, config: &mut Config) -> Line {
    match parse_number(number) {
        Some(number) if set(name, number, config) => Line::Limit,
        _ => Line::Bad,
    }
}

/// What a line says.
fn read_line(alloc: Global, line: &str, config: &mut Config) -> Result<Line, TextError> {
    let words = split_words(alloc, line)?;
    match words.as_slice() {
        [] => Ok(Line::Nothing),
        [""] if line.is_empty() => Ok(Line::Nothing),
        ["language", "2"] => Ok(Line::Language),
        ["nodes" | "voters" | "learners" | "set", ..] => Ok(Line::Head),
        ["limit", name, number] => Ok(read_limit(name, number, config)),
        _ => Ok(match parse_action(alloc, &words)? {
            Some(action) => Line::Does(action),
            None => Line::Bad,
        }),
    }
}

/// The lines read so far.
#[derive(Drop)]
struct Draft {
    /// Whether `language 2` is there.
    has_begun: bool,
    /// As many lines: those of the head, empty ones and comments; for each limit a comment.
    head: String,
    config: Config,
    body: u64,
    actions: Vec<Action>,
}

impl Draft {
    fn new(alloc: Global) -> Draft {
        Draft {
            has_begun: false,
            head: String::new(alloc),
            config: Config::usual(),
            body: u64::MAX,
            actions: Vec::new(alloc),
        }
    }

    /// What the head says, or its first wrong line. If no nodes are there, that is the line after those read so far.
    fn read_head(&self, alloc: Global) -> Result<Schedule, TextError> {
        Ok(parse_schedule(alloc, self.head.as_str())?)
    }

    /// Adds an action, which line `number` says. In front of the first one the head is whole.
    fn add(&mut self, alloc: Global, number: u64, action: Action) -> Result<(), TextError> {
        if self.actions.is_empty() {
            self.read_head(alloc)?;
            self.body = number;
        }
        Ok(self.actions.push(action)?)
    }

    /// Reads line `number`. If it is wrong in its place, the answer is the first wrong line, which may be one of the head.
    fn take_line(&mut self, alloc: Global, number: u64, line: &str) -> Result<(), TextError> {
        match read_line(alloc, line, &mut self.config)? {
            Line::Nothing => self.head.push_str(line)?,
            Line::Language if !self.has_begun => {
                self.has_begun = true;
                self.head.push_str(line)?;
            }
            Line::Head if self.has_begun && self.actions.is_empty() => self.head.push_str(line)?,
            Line::Limit if self.has_begun && self.actions.is_empty() => self.head.push('#')?,
            Line::Does(action) if self.has_begun => self.add(alloc, number, action)?,
            _ => {
                self.read_head(alloc)?;
                return Err(TextError::BadLine(number));
            }
        }
        Ok(())
    }
}

/// What a text says, or its first wrong line: the head of a schedule of the second language, with limits, and then actions. In a text
/// without nodes, and without a line that is wrong in its place, that is the line after the last one.
pub fn read_plan(alloc: Global, text: &str) -> Result<Plan, TextError> {
    let mut draft = Draft::new(alloc);
    let mut number = 0u64;
    for line in text.split('\n') {
        if number > 0 {
            draft.head.push('\n')?;
        }
        number = number.saturating_add(1);
        draft.take_line(alloc, number, line)?;
    }
    let schedule = draft.read_head(alloc)?;
    Ok(Plan {
        given: Given {
            ids: Items::from_vec(schedule.nodes),
            membership: schedule.membership,
            settings: schedule.settings,
        },
        config: draft.config,
        body: draft.body,
        actions: draft.actions,
    })
}
