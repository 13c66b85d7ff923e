//! The lines of a schedule.

ghost use Rattle.std.specs.Prelude.{◌≡◌, ◌<◌, ◌==◌, ◌∷◌, ◌++◌, codes, length, map, IfOk, IfErr, OnOk};
ghost use Rattle.std.specs.List.{slice_split};
ghost use Rattle.std.specs.Option.{option_map};
ghost use Rattle.raft_schedule.specs.Line.{parts, begins, words, number, numbers, hex_bytes, value, each_value, is_count, values, start_of};
ghost use Rattle.raft_schedule.specs.Line.{of_second, kind_of_one, kind_of_two, short_kind, group, groups_and_learners, change, named_kind, kind};
ghost use Rattle.raft_schedule.specs.Line.{trailing, takes_time, policy, named_setting, setting, event, message_kind, pair, ends, only_kind, next};
ghost use Rattle.raft_schedule.specs.Line.{all_of, delivery, id_of, log_id, optional_id, optional_index, mark, marked, vote, role, named_fact};
ghost use Rattle.raft_schedule.specs.Line.{named_facts, facts, answer, expectation, step};
ghost use Rattle.raft_schedule.specs.Text.{is_skipped, begins_second, said_at, behind, lines, nothing, with_setting, and_said, said_by, without_data};
ghost use Rattle.raft_schedule.specs.Text.{plan, plan_of, Parses};
ghost use Rattle.raft_schedule.specs.Reading.{texts, split_texts, Gives, said, so_far, is_out_of_memory, Takes, Reads};

use crate::event::{Event, EventKind, Start};
use crate::step::{Expectation, Fact, Link, MessageKind, Numbered, Step};
use hex::FromHexError;
use raft_state::{Items, LeaderId, LogId, Membership, ServerState, SnapshotPolicy, Vote};
use raft_store::Value;
use raft_store::raft_command::{EngineConfig, time_state};
use std::alloc::{AllocError, AllocFailed, Global};
use std::error::Error;
use std::fmt;

/// Why a text is not a schedule.
#[derive(Debug, Drop)]
pub enum ScheduleError {
    /// The first line, counted from 1, that is wrong in its place.
    BadLine(u64),
    OutOfMemory,
}

impl fmt::Display for ScheduleError {
    ghost use Rattle.std.specs.Prelude.{Some};
    ghost use Rattle.raft_schedule.specs.Text.{error_text};

    ghost output = { λ error. Some (error_text error) };

    fn fmt<W: fmt::Write>(&self, f: &mut fmt::Formatter<W>) -> fmt::Result {
        match self {
            ScheduleError::BadLine(line) => write!(f, "line {line}: bad line"),
            ScheduleError::OutOfMemory => f.write_str("W5"),
        }
    }
}

impl Error for ScheduleError {}

/// The language of a text, the nodes of a world, its first membership and settings, and its steps.
#[derive(Debug, Drop)]
pub struct Schedule {
    pub language: Language,
    pub nodes: Vec<u64>,
    pub membership: Membership<u64, ()>,
    pub settings: EngineConfig<u64>,
    pub steps: Vec<Numbered>,
}

/// Why a line isn't accepted.
#[derive(Debug, Drop)]
enum LineError {
    Bad,
    OutOfMemory,
}

impl From<AllocError> for LineError {
    ghost use Rattle.std.specs.Prelude.{◌≡◌};
    ghost use Rattle.raft_schedule.specs.declared.schedule.LineError.TheVariants.{OutOfMemory};

    ghost from_gives = { λ _ e. e ≡ OutOfMemory };

    fn from(_: AllocError) -> LineError {
        LineError::OutOfMemory
    }
}

impl<T: Drop> From<AllocFailed<T>> for LineError {
    ghost use Rattle.std.specs.Prelude.{◌≡◌};
    ghost use Rattle.raft_schedule.specs.declared.schedule.LineError.TheVariants.{OutOfMemory};

    ghost from_gives = { λ _ e. e ≡ OutOfMemory };

    fn from(_: AllocFailed<T>) -> LineError {
        LineError::OutOfMemory
    }
}

impl From<FromHexError> for LineError {
    ghost use Rattle.std.specs.Prelude.{◌≡◌};
    ghost use Rattle.raft_schedule.specs.Reading.{hex_error};

    ghost from_gives = { λ e error. error ≡ hex_error e };

    fn from(error: FromHexError) -> LineError {
        match error {
            FromHexError::OutOfMemory => LineError::OutOfMemory,
            _ => LineError::Bad,
        }
    }
}

/// The language of a line: the first, or the second behind a line `language 2`.
#[derive(Clone, Copy, PartialEq, Eq, Debug)]
pub enum Language {
    First,
    Second,
}

/// What precedes a line, besides `language 2`: nothing, the nodes with the groups of voters, the learners, the settings,
/// or events.
#[derive(Clone, Copy, PartialEq, Eq, Debug)]
enum Place {
    Start,
    Voters,
    Learners,
    Settings,
    Events,
}

/// One of the settings.
#[derive(Clone, Copy)]
enum Setting {
    Lease(u64),
    Policy(SnapshotPolicy),
    Keep(u64),
    Batch(u64),
    Payload(u64),
}

/// What a line says.
#[derive(Drop)]
enum Line {
    Nodes(Vec<u64>),
    Voters(Vec<u64>),
    Learners(Vec<u64>),
    Sets(Setting),
    Does(Step),
}

/// Whether a line is empty, or a comment.
fn is_skipped(line: &str) -> bool
    ensures { result ≡ is_skipped line.now }
{
    if line.is_empty() {
        return true;
    }
    line.starts_with('#')
}

/// Whether a line begins the second language: it is `language 2`, in place of the first statement.
fn begins_second(language: Language, place: Place, line: &str) -> bool
    ensures { result ≡ begins_second language place line.now }
{
    language == Language::First && place == Place::Start && line == "language 2"
}

/// Whether a word begins a comment, in the second language.
fn begins_comment(word: &str) -> bool
    ensures { result ≡ begins 35 word.now }
{
    word.starts_with('#')
}

/// The words of a line, separated by single spaces; in the second language those before a comment.
fn split_words(alloc: Global, language: Language, line: &str) -> Result<Vec<&str>, AllocError>
    ensures { IfOk result (λ parts. texts parts.items ≡ words language line.now) }
{
    let words = line.split(' ');
    match language {
        Language::First => words.collect(alloc),
        Language::Second => words
            .take_while(|word| !begins_comment(word))
            .collect(alloc),
    }
}

/// A decimal number below 2^64, without a sign or leading zeros.
pub fn parse_number(word: &str) -> Option<u64>
    ensures { result ≡ number word.now }
{
    // `parse` takes a plus and leading zeros
    if word.starts_with('+') {
        return None;
    }
    if word.len() > 1 && word.starts_with('0') {
        return None;
    }
    word.parse::<u64>().ok()
}

fn parse_numbers(alloc: Global, words: &[&str]) -> Result<Vec<u64>, LineError>
    ensures { Gives (λ v. v.items) result (numbers (texts words.now)) }
{
    let mut numbers = Vec::new(alloc);
    for word in words {
        let Some(number) = parse_number(word) else {
            return Err(LineError::Bad);
        };
        numbers.push(number)?;
    }
    Ok(numbers)
}

/// An event whose name is a word of the second language alone.
fn of_second(language: Language, kind: EventKind) -> Option<EventKind>
    ensures { result ≡ of_second language kind }
{
    match language {
        Language::First => None,
        Language::Second => Some(kind),
    }
}

#[tactic(auto, unfolding(crate::specs::Line::kind_of_one))]
fn parse_kind_of_one(language: Language, name: &str, number: u64) -> Option<EventKind>
    ensures { result ≡ kind_of_one language name.now number }
{
    match name {
        "init" => Some(EventKind::Init(number)),
        "timeout" => Some(EventKind::Timeout(number)),
        "deliver" => Some(EventKind::Deliver(number)),
        "heartbeat" => Some(EventKind::Heartbeat(number)),
        "snapshot" => Some(EventKind::Snapshot(number)),
        "built" => Some(EventKind::Built(number)),
        "restart" => Some(EventKind::Restart {
            id: number,
            start: Start::Plain,
        }),
        "read" => Some(EventKind::Read(number)),
        "down" => Some(EventKind::Down(number)),
        "stop" => of_second(language, EventKind::Stop(number)),
        "stand" => of_second(language, EventKind::Stand(number)),
        _ => None,
    }
}

/// The bytes whose hexadecimal text this is, in small letters.
fn parse_hex(alloc: Global, text: &str) -> Result<Items<u8>, LineError>
    ensures { Gives (λ bytes. bytes) result (hex_bytes text.now) }
{
    let bytes = hex::decode(alloc, text)?;
    // `decode` takes capital letters too
    if text != hex::encode(alloc, bytes.as_slice())?.as_str() {
        return Err(LineError::Bad);
    }
    Ok(Items::from_vec(bytes))
}

/// What is proposed: a number; in the second language also bytes, as `x` and their hexadecimal text.
fn parse_value(alloc: Global, language: Language, word: &str) -> Result<Value, LineError>
    ensures { Gives (λ value. value) result (value language word.now) }
{
    match (language, word.strip_prefix('x')) {
        (Language::Second, Some(text)) => Ok(Value::Bytes(parse_hex(alloc, text)?)),
        _ => match parse_number(word) {
            Some(number) => Ok(Value::Number(number)),
            None => Err(LineError::Bad),
        },
    }
}

/// The value of each word.
fn parse_each_value(
    alloc: Global,
    language: Language,
    words: &[&str],
) -> Result<Vec<Value>, LineError>
    ensures { Gives (λ values. values.items) result (each_value language (texts words.now)) }
{
    let mut values = Vec::new(alloc);
    for word in words {
        values.push(parse_value(alloc, language, word)?)?;
    }
    Ok(values)
}

/// Whether one event may propose so many values.
fn is_count(language: Language, count: usize) -> bool
    ensures { result ≡ is_count language count }
{
    match language {
        Language::First => count == 1,
        Language::Second => count > 0,
    }
}

/// The values of a proposal: one, in the second language one or more.
fn parse_values(
    alloc: Global,
    language: Language,
    words: &[&str],
) -> Result<Items<Value>, LineError>
    ensures { Gives (λ values. values) result (values language (texts words.now)) }
{
    if !is_count(language, words.len()) {
        return Err(LineError::Bad);
    }
    Ok(Items::from_vec(parse_each_value(alloc, language, words)?))
}

/// How a node starts; `bare` is a word of the second language.
#[tactic(auto, unfolding(crate::specs::Line::start_of))]
fn parse_start(language: Language, word: &str) -> Option<Start>
    ensures { result ≡ start_of language word.now }
{
    match word {
        "saved" => Some(Start::Saved),
        "bare" => match language {
            Language::First => None,
            Language::Second => Some(Start::Bare),
        },
        _ => None,
    }
}

#[tactic(auto, unfolding(crate::specs::Line::kind_of_two))]
fn parse_kind_of_two(language: Language, name: &str, id: u64, second: &str) -> Option<EventKind>
    ensures { result ≡ kind_of_two language name.now id second.now }
{
    match name {
        "fail" => {
            let target = parse_number(second)?;
            Some(EventKind::Fail { id, target })
        }
        "purge" => {
            let index = parse_number(second)?;
            Some(EventKind::Purge { id, index })
        }
        "restart" => {
            let start = parse_start(language, second)?;
            Some(EventKind::Restart { id, start })
        }
        _ => None,
    }
}

fn parse_short_kind(language: Language, name: &str, number: u64, rest: &[&str]) -> Option<EventKind>
    ensures { result ≡ short_kind language name.now number (texts rest.now) }
{
    match rest {
        [] => parse_kind_of_one(language, name, number),
        [second] => parse_kind_of_two(language, name, number, second),
        _ => None,
    }
}

/// The parts of a group's word, separated by commas.
fn split_group(alloc: Global, word: &str) -> Result<Vec<&str>, AllocError>
    ensures { IfOk result (λ ids. texts ids.items ≡ parts 44 word.now) }
{
    word.split(',').collect(alloc)
}

/// The parts of a sender and an addressee, separated by `>`.
fn split_ends(alloc: Global, word: &str) -> Result<Vec<&str>, AllocError>
    ensures { IfOk result (λ ids. texts ids.items ≡ parts 62 word.now) }
{
    word.split('>').collect(alloc)
}

/// The parts of an id, separated by `-`.
fn split_id(alloc: Global, word: &str) -> Result<Vec<&str>, AllocError>
    ensures { IfOk result (λ ids. texts ids.items ≡ parts 45 word.now) }
{
    word.split('-').collect(alloc)
}

/// The parts of a vote, separated by `:`.
fn split_vote(alloc: Global, word: &str) -> Result<Vec<&str>, AllocError>
    ensures { IfOk result (λ ids. texts ids.items ≡ parts 58 word.now) }
{
    word.split(':').collect(alloc)
}

/// The ids of a group, separated by commas.
fn parse_group(alloc: Global, word: &str) -> Result<Items<u64>, LineError>
    ensures { Gives (λ ids. ids) result (group word.now) }
{
    let ids = split_group(alloc, word)?;
    Ok(Items::from_vec(parse_numbers(alloc, &ids)?))
}

/// Groups of voters; then, if there are learners, the word `learners` and their ids.
fn parse_groups_and_learners(
    alloc: Global,
    words: &[&str],
) -> Result<(Items<Items<u64>>, Items<u64>), LineError>
    ensures { Gives (λ members. members) result (groups_and_learners (texts words.now)) }
{
    let mut groups = Items::new(alloc);
    for (i, word) in words.iter().enumerate() {
        if *word == "learners" {
            let learners = parse_numbers(alloc, &words[i + 1..])?;
            if learners.is_empty() {
                return Err(LineError::Bad);
            }
            return Ok((groups, Items::from_vec(learners)));
        }
        groups.push(parse_group(alloc, word)?)?;
    }
    Ok((groups, Items::new(alloc)))
}

#[tactic(auto, unfolding(crate::specs::Line::change))]
fn parse_change(alloc: Global, id: u64, words: &[&str]) -> Result<EventKind, LineError>
    ensures { Gives (λ kind. kind) result (change id (texts words.now)) }
{
    let (groups, learners) = parse_groups_and_learners(alloc, words)?;
    if groups.is_empty() {
        return Err(LineError::Bad);
    }
    Ok(EventKind::Change {
        id,
        groups,
        learners,
    })
}

#[tactic(auto, unfolding(crate::specs::Line::named_kind))]
fn parse_named_kind(
    alloc: Global,
    language: Language,
    name: &str,
    number: u64,
    rest: &[&str],
) -> Result<EventKind, LineError>
    ensures { Gives (λ kind. kind) result (named_kind language name.now number (texts rest.now)) }
{
    match name {
        "propose" => {
            let values = parse_values(alloc, language, rest)?;
            Ok(EventKind::Propose { id: number, values })
        }
        "member" => Ok(EventKind::Member {
            id: number,
            learners: Items::from_vec(parse_numbers(alloc, rest)?),
        }),
        "change" => parse_change(alloc, number, rest),
        _ => parse_short_kind(language, name, number, rest).ok_or(LineError::Bad),
    }
}

fn parse_kind(alloc: Global, language: Language, words: &[&str]) -> Result<EventKind, LineError>
    ensures { Gives (λ kind. kind) result (kind language (texts words.now)) }
{
    let [name, first, rest @ ..] = words else {
        return Err(LineError::Bad);
    };
    let Some(number) = parse_number(first) else {
        return Err(LineError::Bad);
    };
    parse_named_kind(alloc, language, name, number, rest)
}

/// The words before a trailing pair of this word and a number, and that number; or all words and none. Behind a word
/// there is such a pair.
#[tactic(auto, unfolding(crate::specs::Line::trailing))]
fn split_trailing<'a, 'w>(name: &str, words: &'a [&'w str]) -> Option<(&'a [&'w str], Option<u64>)>
    ensures { option_map split_texts result ≡ trailing name.now (texts words.now) }
{
    match words {
        [before @ .., word, argument] if !before.is_empty() && *word == name => {
            Some((before, Some(parse_number(argument)?)))
        }
        _ => Some((words, None)),
    }
}

/// Whether an event of this kind may have a time.
fn takes_time(kind: &EventKind) -> bool
    ensures { result ≡ takes_time kind.now }
{
    !matches!(kind, EventKind::Restart { .. })
}

/// What a line says that is an event; it is read from its end.
#[tactic(auto, unfolding(crate::specs::Line::event))]
fn parse_event(alloc: Global, language: Language, words: &[&str]) -> Result<Event, LineError>
    ensures { Gives (λ event. event) result (event language (texts words.now)) }
{
    let Some((words, stop)) = split_trailing("stop", words) else {
        return Err(LineError::Bad);
    };
    let Some((words, at)) = split_trailing("at", words) else {
        return Err(LineError::Bad);
    };
    let kind = parse_kind(alloc, language, words)?;
    if at.is_some() && !takes_time(&kind) {
        return Err(LineError::Bad);
    }
    Ok(Event { kind, at, stop })
}

#[tactic(auto, unfolding(crate::specs::Line::message_kind))]
fn parse_message_kind(word: &str) -> Option<MessageKind>
    ensures { result ≡ message_kind word.now }
{
    match word {
        "vote-request" => Some(MessageKind::VoteRequest),
        "vote-reply" => Some(MessageKind::VoteReply),
        "append" => Some(MessageKind::Append),
        "heartbeat" => Some(MessageKind::Heartbeat),
        "append-reply" => Some(MessageKind::AppendReply),
        "snapshot" => Some(MessageKind::Snapshot),
        "snapshot-reply" => Some(MessageKind::SnapshotReply),
        _ => None,
    }
}

/// Two numbers.
fn pair_of(numbers: &[u64]) -> Option<(u64, u64)>
    ensures { result ≡ pair numbers.now }
{
    match numbers {
        [one, other] => Some((*one, *other)),
        _ => None,
    }
}

/// A sender and an addressee, separated by `>`.
#[tactic(auto, unfolding(crate::specs::Line::ends))]
fn parse_ends(alloc: Global, word: &str) -> Result<(u64, u64), LineError>
    ensures { Gives (λ ends. ends) result (ends word.now) }
{
    let words = split_ends(alloc, word)?;
    let ids = parse_numbers(alloc, &words)?;
    pair_of(&ids).ok_or(LineError::Bad)
}

/// The message kind that these words are, if it is one word.
fn parse_only_kind(words: &[&str]) -> Option<MessageKind>
    ensures { result ≡ only_kind (texts words.now) }
{
    match words {
        [word] => parse_message_kind(word),
        _ => None,
    }
}

/// A delivery on a link, read from its end.
#[tactic(auto, unfolding(crate::specs::Line::next))]
fn parse_next(ends: (u64, u64), words: &[&str]) -> Option<Step>
    ensures { result ≡ next ends (texts words.now) }
{
    let (words, stop) = split_trailing("stop", words)?;
    let (words, at) = split_trailing("at", words)?;
    let (from, to) = ends;
    let kind = parse_only_kind(words)?;
    Some(Step::Next {
        link: Link { from, to, kind },
        at,
        stop,
    })
}

/// How often `deliver all` delivers without a number.
const ALL: u64 = 10_000;

#[tactic(auto, unfolding(crate::specs::Line::all_of))]
fn parse_all(words: &[&str]) -> Option<Step>
    ensures { result ≡ all_of (texts words.now) }
{
    match words {
        [] => Some(Step::All(ALL)),
        [word] => Some(Step::All(parse_number(word)?)),
        _ => None,
    }
}

/// What a line of the second language delivers: all, the next of a link, or a message by its number.
#[tactic(auto, unfolding(crate::specs::Line::delivery))]
fn parse_delivery(
    alloc: Global,
    first: &str,
    rest: &[&str],
    words: &[&str],
) -> Result<Step, LineError>
    requires { texts words.now ≡ codes "deliver" ∷ first.now ∷ texts rest.now }
    ensures { Gives (λ step. step) result (delivery first.now (texts rest.now)) }
{
    if first == "all" {
        return parse_all(rest).ok_or(LineError::Bad);
    }
    match parse_ends(alloc, first) {
        Ok(ends) => parse_next(ends, rest).ok_or(LineError::Bad),
        Err(LineError::Bad) => Ok(Step::Happens(parse_event(alloc, Language::Second, words)?)),
        Err(LineError::OutOfMemory) => Err(LineError::OutOfMemory),
    }
}

/// A log id, from its numbers.
fn id_of(numbers: &[u64]) -> Option<LogId<u64>>
    ensures { result ≡ id_of numbers.now }
{
    match numbers {
        [term, node, index] => Some(LogId {
            leader_id: LeaderId {
                term: *term,
                node_id: *node,
            },
            index: *index,
        }),
        _ => None,
    }
}

#[tactic(auto, unfolding(crate::specs::Line::log_id))]
fn parse_log_id(alloc: Global, word: &str) -> Result<LogId<u64>, LineError>
    ensures { Gives (λ id. id) result (log_id word.now) }
{
    let words = split_id(alloc, word)?;
    let numbers = parse_numbers(alloc, &words)?;
    id_of(&numbers).ok_or(LineError::Bad)
}

#[tactic(auto, unfolding(crate::specs::Line::optional_id))]
fn parse_optional_id(alloc: Global, word: &str) -> Result<Option<LogId<u64>>, LineError>
    ensures { Gives (λ id. id) result (optional_id word.now) }
{
    if word == "None" {
        return Ok(None);
    }
    Ok(Some(parse_log_id(alloc, word)?))
}

#[tactic(auto, unfolding(crate::specs::Line::optional_index))]
fn parse_optional_index(word: &str) -> Option<Option<u64>>
    ensures { result ≡ optional_index word.now }
{
    if word == "None" {
        return Some(None);
    }
    Some(Some(parse_number(word)?))
}

#[tactic(auto, unfolding(crate::specs::Line::mark))]
fn parse_mark(word: &str) -> Option<bool>
    ensures { result ≡ mark word.now }
{
    match word {
        "Q" => Some(true),
        "-" => Some(false),
        _ => None,
    }
}

/// A vote from its leader id and its mark.
fn parse_marked(alloc: Global, words: &[&str]) -> Result<Vote<u64>, LineError>
    ensures { Gives (λ vote. vote) result (marked (texts words.now)) }
{
    let [ids, word] = words else {
        return Err(LineError::Bad);
    };
    let parts = split_id(alloc, ids)?;
    let numbers = parse_numbers(alloc, &parts)?;
    let (term, node_id) = pair_of(&numbers).ok_or(LineError::Bad)?;
    let committed = parse_mark(word).ok_or(LineError::Bad)?;
    Ok(Vote {
        leader_id: LeaderId { term, node_id },
        committed,
    })
}

fn parse_vote(alloc: Global, word: &str) -> Result<Vote<u64>, LineError>
    ensures { Gives (λ vote. vote) result (vote word.now) }
{
    let words = split_vote(alloc, word)?;
    parse_marked(alloc, &words)
}

#[tactic(auto, unfolding(crate::specs::Line::role))]
fn parse_role(word: &str) -> Option<Fact>
    ensures { result ≡ role word.now }
{
    match word {
        "Learner" => Some(Fact::Role(ServerState::Learner)),
        "Follower" => Some(Fact::Role(ServerState::Follower)),
        "Candidate" => Some(Fact::Role(ServerState::Candidate)),
        "Leader" => Some(Fact::Role(ServerState::Leader)),
        "stopped" => Some(Fact::Stopped),
        _ => None,
    }
}

#[tactic(auto, unfolding(crate::specs::Line::named_fact))]
fn parse_named_fact(alloc: Global, name: &str, word: &str) -> Result<Fact, LineError>
    ensures { Gives (λ fact. fact) result (named_fact name.now word.now) }
{
    match name {
        "vote" => Ok(Fact::Vote(parse_vote(alloc, word)?)),
        "last" => Ok(Fact::Last(parse_optional_id(alloc, word)?)),
        "committed" => Ok(Fact::Committed(parse_optional_id(alloc, word)?)),
        "applied" => {
            let index = parse_optional_index(word).ok_or(LineError::Bad)?;
            Ok(Fact::Applied(index))
        }
        _ => Err(LineError::Bad),
    }
}

/// Appends the facts of pairs of a name and a word.
#[tactic(auto, unfolding(crate::specs::Line::named_facts))]
fn push_named_facts(alloc: Global, words: &[&str], facts: &mut Vec<Fact>) -> Result<(), LineError>
    ensures { Gives (λ _. facts.new.items) result (option_map (λ more. facts.old.items ++ more) (named_facts (texts words.now))) }
{
    match words {
        [] => Ok(()),
        [name, word, rest @ ..] => {
            let fact = parse_named_fact(alloc, name, word)?;
            facts.push(fact)?;
            push_named_facts(alloc, rest, facts)
        }
        _ => Err(LineError::Bad),
    }
}

/// Facts of a node: its role, if it is there, and pairs of a name and a word.
#[tactic(auto, unfolding(crate::specs::Line::facts))]
fn parse_facts(alloc: Global, words: &[&str]) -> Result<Items<Fact>, LineError>
    ensures { Gives (λ facts. facts) result (facts (texts words.now)) }
{
    let mut facts = Vec::new(alloc);
    let [word, rest @ ..] = words else {
        return Ok(Items::from_vec(facts));
    };
    match parse_role(word) {
        Some(fact) => {
            facts.push(fact)?;
            push_named_facts(alloc, rest, &mut facts)?;
        }
        None => push_named_facts(alloc, words, &mut facts)?,
    }
    Ok(Items::from_vec(facts))
}

/// The one log id, or none, that a read is expected to have answered.
fn parse_answer(alloc: Global, words: &[&str]) -> Result<Option<LogId<u64>>, LineError>
    ensures { Gives (λ id. id) result (answer (texts words.now)) }
{
    match words {
        [word] => parse_optional_id(alloc, word),
        _ => Err(LineError::Bad),
    }
}

#[tactic(auto, unfolding(crate::specs::Line::expectation))]
fn parse_expectation(alloc: Global, first: &str, rest: &[&str]) -> Result<Expectation, LineError>
    ensures { Gives (λ expectation. expectation) result (expectation first.now (texts rest.now)) }
{
    match first {
        "agree" => {
            if !rest.is_empty() {
                return Err(LineError::Bad);
            }
            Ok(Expectation::Agree)
        }
        "read" => Ok(Expectation::Read(parse_answer(alloc, rest)?)),
        _ => {
            let id = parse_number(first).ok_or(LineError::Bad)?;
            let facts = parse_facts(alloc, rest)?;
            Ok(Expectation::Node { id, facts })
        }
    }
}

/// What a line of the second language in the place of events says.
#[tactic(auto, unfolding(crate::specs::Line::step))]
fn parse_named_step(alloc: Global, words: &[&str]) -> Result<Step, LineError>
    ensures { Gives (λ step. step) result (step Language.Second (texts words.now)) }
{
    let [name, first, rest @ ..] = words else {
        return Err(LineError::Bad);
    };
    match *name {
        "deliver" => parse_delivery(alloc, first, rest, words),
        "expect" => Ok(Step::Expects(parse_expectation(alloc, first, rest)?)),
        _ => Ok(Step::Happens(parse_event(alloc, Language::Second, words)?)),
    }
}

/// What a line in the place of events says; in the first language an event.
#[tactic(auto, unfolding(crate::specs::Line::step))]
fn parse_step(alloc: Global, language: Language, words: &[&str]) -> Result<Step, LineError>
    ensures { Gives (λ step. step) result (step language (texts words.now)) }
{
    match language {
        Language::First => Ok(Step::Happens(parse_event(alloc, language, words)?)),
        Language::Second => parse_named_step(alloc, words),
    }
}

#[tactic(auto, unfolding(crate::specs::Line::policy))]
fn parse_policy(value: &str) -> Option<SnapshotPolicy>
    ensures { result ≡ policy value.now }
{
    if value == "never" {
        return Some(SnapshotPolicy::Never);
    }
    Some(SnapshotPolicy::LogsSinceLast(parse_number(value)?))
}

#[tactic(auto, unfolding(crate::specs::Line::named_setting))]
fn parse_named_setting(name: &str, value: &str) -> Option<Setting>
    ensures { result ≡ named_setting name.now value.now }
{
    match name {
        "lease" => Some(Setting::Lease(parse_number(value)?)),
        "policy" => Some(Setting::Policy(parse_policy(value)?)),
        "keep" => Some(Setting::Keep(parse_number(value)?)),
        "batch" => Some(Setting::Batch(parse_number(value)?)),
        "payload" => Some(Setting::Payload(parse_number(value)?)),
        _ => None,
    }
}

fn parse_setting(words: &[&str]) -> Option<Setting>
    ensures { result ≡ setting (texts words.now) }
{
    match words {
        [name, value] => parse_named_setting(name, value),
        _ => None,
    }
}

/// What a line says, if it may come in this place.
#[tactic(auto, unfolding(crate::specs::Line::meaning))]
fn parse_line(
    alloc: Global,
    language: Language,
    place: Place,
    words: &[&str],
) -> Result<Line, LineError>
    ensures { Gives said result (said_at language place (texts words.now)) }
{
    let [first, rest @ ..] = words else {
        return Err(LineError::Bad);
    };
    match *first {
        "nodes" => {
            if place != Place::Start {
                return Err(LineError::Bad);
            }
            Ok(Line::Nodes(parse_numbers(alloc, rest)?))
        }
        "voters" => {
            if place != Place::Voters {
                return Err(LineError::Bad);
            }
            Ok(Line::Voters(parse_numbers(alloc, rest)?))
        }
        "learners" => {
            if place != Place::Voters {
                return Err(LineError::Bad);
            }
            Ok(Line::Learners(parse_numbers(alloc, rest)?))
        }
        "set" => {
            if place == Place::Start || place == Place::Events {
                return Err(LineError::Bad);
            }
            match parse_setting(rest) {
                Some(setting) => Ok(Line::Sets(setting)),
                None => Err(LineError::Bad),
            }
        }
        _ => {
            if place == Place::Start {
                return Err(LineError::Bad);
            }
            Ok(Line::Does(parse_step(alloc, language, words)?))
        }
    }
}

/// The settings with one of them set.
fn with_setting(settings: EngineConfig<u64>, setting: Setting) -> EngineConfig<u64>
    ensures { result ≡ with_setting settings setting }
{
    match setting {
        Setting::Lease(leader_lease) => EngineConfig {
            timer_config: time_state::Config {
                leader_lease,
                ..settings.timer_config
            },
            ..settings
        },
        Setting::Policy(snapshot_policy) => EngineConfig {
            snapshot_policy,
            ..settings
        },
        Setting::Keep(max_in_snapshot_log_to_keep) => EngineConfig {
            max_in_snapshot_log_to_keep,
            ..settings
        },
        Setting::Batch(purge_batch_size) => EngineConfig {
            purge_batch_size,
            ..settings
        },
        Setting::Payload(max_payload_entries) => EngineConfig {
            max_payload_entries,
            ..settings
        },
    }
}

/// The lines read so far.
#[derive(Drop)]
struct Draft {
    language: Language,
    place: Place,
    nodes: Vec<u64>,
    groups: Vec<Vec<u64>>,
    learners: Vec<u64>,
    settings: EngineConfig<u64>,
    steps: Vec<Numbered>,
}

impl Draft {
    fn new(alloc: Global) -> Draft
        ensures said { so_far result ≡ nothing }
        ensures language { result.language ≡ Language.First }
        ensures place { result.place ≡ Place.Start }
    {
        Draft {
            language: Language::First,
            place: Place::Start,
            nodes: Vec::new(alloc),
            groups: Vec::new(alloc),
            learners: Vec::new(alloc),
            settings: EngineConfig::default(),
            steps: Vec::new(alloc),
        }
    }

    /// Adds what line `number` says.
    fn add(&mut self, number: u64, line: Line) -> Result<(), LineError>
        ensures said { OnOk result (so_far self.new ≡ and_said (so_far self.old) (number, said line)) }
        ensures language { self.new.language ≡ self.old.language }
        ensures place { OnOk result (self.new.place ≡ behind (said line)) }
        ensures err { IfErr result is_out_of_memory }
    {
        match line {
            Line::Nodes(ids) => {
                self.nodes = ids;
                self.place = Place::Voters;
            }
            Line::Voters(ids) => {
                self.groups.push(ids)?;
                self.place = Place::Voters;
            }
            Line::Learners(ids) => {
                self.learners = ids;
                self.place = Place::Learners;
            }
            Line::Sets(setting) => {
                self.settings = with_setting(self.settings, setting);
                self.place = Place::Settings;
            }
            Line::Does(step) => {
                self.steps.push(Numbered { line: number, step })?;
                self.place = Place::Events;
            }
        }
        Ok(())
    }

    /// Reads line `number`.
    fn take_line(&mut self, alloc: Global, number: u64, line: &str) -> Result<(), LineError>
        ensures { Takes number line.now self.old self.new result }
    {
        if is_skipped(line) {
            return Ok(());
        }
        if begins_second(self.language, self.place, line) {
            self.language = Language::Second;
            return Ok(());
        }
        let words = split_words(alloc, self.language, line)?;
        let line = parse_line(alloc, self.language, self.place, &words)?;
        self.add(number, line)
    }
}

/// A text without the LF of its last line.
fn without_last_lf(text: &str) -> &str
    ensures { 0 < length text.now → slice_split (λ b. b == 10) result.now ≡ lines text.now }
{
    match text.strip_suffix('\n') {
        Some(body) => body,
        None => text,
    }
}

/// What lines say together. They are separated by LF, and counted from 1.
fn read_lines(alloc: Global, body: &str) -> Result<Draft, ScheduleError>
    ensures { Reads (said_by (slice_split (λ b. b == 10) body.now)) result }
{
    let mut draft = Draft::new(alloc);
    let mut count = 0u64;
    for line in body.split('\n') {
        count = count.saturating_add(1);
        match draft.take_line(alloc, count, line) {
            Ok(()) => {}
            Err(LineError::Bad) => return Err(ScheduleError::BadLine(count)),
            Err(LineError::OutOfMemory) => return Err(ScheduleError::OutOfMemory),
        }
    }
    match draft.place {
        Place::Start => Err(ScheduleError::BadLine(count.saturating_add(1))),
        _ => Ok(draft),
    }
}

/// Nodes with these ids; a node has no data.
fn without_data(alloc: Global, ids: &[u64]) -> Result<Vec<(u64, ())>, AllocError>
    ensures { IfOk result (λ nodes. nodes.items ≡ map without_data ids.now) }
{
    ids.iter().map(|id| (*id, ())).collect(alloc)
}

/// What was said, as a schedule: a learner is a node of the membership that votes in no group.
fn schedule_of(alloc: Global, draft: Draft) -> Result<Schedule, AllocError>
    ensures { IfOk result (λ schedule. plan schedule ≡ plan_of (so_far draft)) }
{
    let Draft {
        language,
        place: _,
        nodes,
        groups,
        learners,
        settings,
        steps,
    } = draft;
    let membership = Membership::new(alloc, groups, without_data(alloc, &learners)?)?;
    Ok(Schedule {
        language,
        nodes,
        membership,
        settings,
        steps,
    })
}

/// The schedule of a text, or its first wrong line. In a text of empty lines and comments alone that is the line after
/// the last one. If the first line besides these is `language 2`, the others are of the second language.
pub fn parse_schedule(alloc: Global, text: &str) -> Result<Schedule, ScheduleError>
    ensures { Parses text.now result }
{
    if text.is_empty() {
        return Err(ScheduleError::BadLine(1));
    }
    let draft = read_lines(alloc, without_last_lf(text))?;
    match schedule_of(alloc, draft) {
        Ok(schedule) => Ok(schedule),
        Err(_) => Err(ScheduleError::OutOfMemory),
    }
}
