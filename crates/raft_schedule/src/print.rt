//! Events and expectations as they stand in a schedule.

ghost use Rattle.std.specs.Prelude.{◌∷◌, Some, flat_map, map};
ghost use Rattle.std.specs.Fmt.{decimal};
ghost use Rattle.raft_schedule.specs.Written.{event_text, expectation_text, fact_text, group_word, kind_text, learner_words, spaced, stop_words};
ghost use Rattle.raft_schedule.specs.Written.{time_words, value_word};

use crate::event::{Event, EventKind, Start};
use crate::step::{Expectation, Fact};
use raft_state::{DisplayOption, Items, ServerState};
use raft_store::{Hex, Value};
use std::fmt;

/// A value: a number, or `x` and two hexadecimal digits for each byte.
#[derive(Clone, Copy, Debug)]
struct ValueWord<'a>(&'a Value);

impl fmt::Display for ValueWord<'_> {
    ghost output = { λ word. Some (value_word word.0.now) };

    fn fmt<W: fmt::Write>(&self, f: &mut fmt::Formatter<W>) -> fmt::Result {
        match self.0 {
            Value::Number(number) => write!(f, "{number}"),
            Value::Bytes(bytes) => {
                let hex = Hex(bytes.as_slice());
                write!(f, "x{hex}")
            }
        }
    }
}

/// Values, each behind a space.
#[derive(Clone, Copy, Debug)]
struct EachValue<'a>(&'a [Value]);

impl fmt::Display for EachValue<'_> {
    ghost output = { λ values. Some (spaced (map value_word values.0.now)) };

    fn fmt<W: fmt::Write>(&self, f: &mut fmt::Formatter<W>) -> fmt::Result {
        for value in self.0 {
            let word = ValueWord(value);
            write!(f, " {word}")?;
        }
        Ok(())
    }
}

/// Ids, each behind a space.
#[derive(Clone, Copy, Debug)]
struct EachId<'a>(&'a [u64]);

impl fmt::Display for EachId<'_> {
    ghost output = { λ ids. Some (spaced (map decimal ids.0.now)) };

    fn fmt<W: fmt::Write>(&self, f: &mut fmt::Formatter<W>) -> fmt::Result {
        for id in self.0 {
            write!(f, " {id}")?;
        }
        Ok(())
    }
}

/// The ids of a group, separated by commas.
#[derive(Clone, Copy, Debug)]
struct GroupWord<'a>(&'a [u64]);

impl fmt::Display for GroupWord<'_> {
    ghost output = { λ ids. Some (group_word ids.0.now) };

    fn fmt<W: fmt::Write>(&self, f: &mut fmt::Formatter<W>) -> fmt::Result {
        let [first, rest @ ..] = self.0 else {
            return Ok(());
        };
        write!(f, "{first}")?;
        for id in rest {
            write!(f, ",{id}")?;
        }
        Ok(())
    }
}

/// Groups, each behind a space.
#[derive(Clone, Copy, Debug)]
struct EachGroup<'a>(&'a [Items<u64>]);

impl fmt::Display for EachGroup<'_> {
    ghost output = { λ groups. Some (spaced (map group_word groups.0.now)) };

    fn fmt<W: fmt::Write>(&self, f: &mut fmt::Formatter<W>) -> fmt::Result {
        for group in self.0 {
            let word = GroupWord(group.as_slice());
            write!(f, " {word}")?;
        }
        Ok(())
    }
}

/// The word `learners` and their ids, each behind a space, if there are learners.
#[derive(Clone, Copy, Debug)]
struct Learners<'a>(&'a [u64]);

impl fmt::Display for Learners<'_> {
    ghost output = { λ ids. Some (spaced (learner_words ids.0.now)) };

    fn fmt<W: fmt::Write>(&self, f: &mut fmt::Formatter<W>) -> fmt::Result {
        if self.0.is_empty() {
            return Ok(());
        }
        let ids = EachId(self.0);
        write!(f, " learners{ids}")
    }
}

impl fmt::Display for EventKind {
    ghost output = { λ kind. Some (kind_text kind) };

    #[tactic(auto, using(crate::proofs::Texts::member_said))]
    fn fmt<W: fmt::Write>(&self, f: &mut fmt::Formatter<W>) -> fmt::Result {
        match self {
            EventKind::Init(id) => write!(f, "init {id}"),
            EventKind::Timeout(id) => write!(f, "timeout {id}"),
            EventKind::Stand(id) => write!(f, "stand {id}"),
            EventKind::Deliver(number) => write!(f, "deliver {number}"),
            EventKind::Propose { id, values } => {
                let values = EachValue(values.as_slice());
                write!(f, "propose {id}{values}")
            }
            EventKind::Heartbeat(id) => write!(f, "heartbeat {id}"),
            EventKind::Fail { id, target } => write!(f, "fail {id} {target}"),
            EventKind::Snapshot(id) => write!(f, "snapshot {id}"),
            EventKind::Built(id) => write!(f, "built {id}"),
            EventKind::Purge { id, index } => write!(f, "purge {id} {index}"),
            EventKind::Restart { id, start } => match start {
                Start::Plain => write!(f, "restart {id}"),
                Start::Saved => write!(f, "restart {id} saved"),
                Start::Bare => write!(f, "restart {id} bare"),
            },
            EventKind::Member { id, learners } => {
                let learners = EachId(learners.as_slice());
                write!(f, "member {id}{learners}")
            }
            EventKind::Change {
                id,
                groups,
                learners,
            } => {
                let groups = EachGroup(groups.as_slice());
                let learners = Learners(learners.as_slice());
                write!(f, "change {id}{groups}{learners}")
            }
            EventKind::Read(id) => write!(f, "read {id}"),
            EventKind::Down(id) => write!(f, "down {id}"),
            EventKind::Stop(id) => write!(f, "stop {id}"),
        }
    }
}

/// The moment of an event, if it has one, behind a space and `at`.
#[derive(Clone, Copy, Debug)]
struct Time(Option<u64>);

impl fmt::Display for Time {
    ghost output = { λ at. Some (spaced (time_words at.0)) };

    #[tactic(auto, using(crate::proofs::Texts::time_said))]
    fn fmt<W: fmt::Write>(&self, f: &mut fmt::Formatter<W>) -> fmt::Result {
        match self.0 {
            Some(at) => write!(f, " at {at}"),
            None => Ok(()),
        }
    }
}

/// After how many commands an event's node stops, if it does, behind a space and `stop`.
#[derive(Clone, Copy, Debug)]
struct Stop(Option<u64>);

impl fmt::Display for Stop {
    ghost output = { λ stop. Some (spaced (stop_words stop.0)) };

    #[tactic(auto, using(crate::proofs::Texts::stop_said))]
    fn fmt<W: fmt::Write>(&self, f: &mut fmt::Formatter<W>) -> fmt::Result {
        match self.0 {
            Some(stop) => write!(f, " stop {stop}"),
            None => Ok(()),
        }
    }
}

impl fmt::Display for Event {
    ghost output = { λ event. Some (event_text event) };

    fn fmt<W: fmt::Write>(&self, f: &mut fmt::Formatter<W>) -> fmt::Result {
        let kind = &self.kind;
        let time = Time(self.at);
        let stop = Stop(self.stop);
        write!(f, "{kind}{time}{stop}")
    }
}

impl fmt::Display for Fact {
    ghost output = { λ fact. Some (fact_text fact) };

    fn fmt<W: fmt::Write>(&self, f: &mut fmt::Formatter<W>) -> fmt::Result {
        match self {
            Fact::Stopped => f.write_str("stopped"),
            Fact::Role(ServerState::Learner) => f.write_str("Learner"),
            Fact::Role(ServerState::Follower) => f.write_str("Follower"),
            Fact::Role(ServerState::Candidate) => f.write_str("Candidate"),
            Fact::Role(ServerState::Leader) => f.write_str("Leader"),
            Fact::Vote(vote) => {
                let leader_id = vote.leader_id;
                let mark = if vote.committed { "Q" } else { "-" };
                write!(f, "vote {leader_id}:{mark}")
            }
            Fact::Last(log_id) => {
                let log_id = DisplayOption(*log_id);
                write!(f, "last {log_id}")
            }
            Fact::Committed(log_id) => {
                let log_id = DisplayOption(*log_id);
                write!(f, "committed {log_id}")
            }
            Fact::Applied(index) => {
                let index = DisplayOption(*index);
                write!(f, "applied {index}")
            }
        }
    }
}

/// Facts, each behind a space.
#[derive(Clone, Copy, Debug)]
struct EachFact<'a>(&'a [Fact]);

impl fmt::Display for EachFact<'_> {
    ghost output = { λ facts. Some (flat_map (λ fact. 32 ∷ fact_text fact) facts.0.now) };

    fn fmt<W: fmt::Write>(&self, f: &mut fmt::Formatter<W>) -> fmt::Result {
        for fact in self.0 {
            write!(f, " {fact}")?;
        }
        Ok(())
    }
}

impl fmt::Display for Expectation {
    ghost output = { λ expectation. Some (expectation_text expectation) };

    fn fmt<W: fmt::Write>(&self, f: &mut fmt::Formatter<W>) -> fmt::Result {
        match self {
            Expectation::Node { id, facts } => {
                let facts = EachFact(facts.as_slice());
                write!(f, "{id}{facts}")
            }
            Expectation::Read(log_id) => {
                let log_id = DisplayOption(*log_id);
                write!(f, "read {log_id}")
            }
            Expectation::Agree => f.write_str("agree"),
        }
    }
}
