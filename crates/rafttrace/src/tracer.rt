//! What a watched run writes.

use crate::commands::{print_command, print_entry};
use crate::events::{node_of, print_event, print_outcome};
use crate::messages::print_message;
use raft_command::Command;
use raft_engine::Engine;
use raft_state::{DisplayOption, ServerState};
use raft_world::{
    Answer, Event, EventKind, Executed, Message, Outcome, Records, Step, Watch, World, WorldConfig,
    WorldError,
};
use std::alloc::{AllocError, Global};
use std::io::{self, Write};

/// The text of a run, and how much of the run it shows.
#[derive(Drop)]
pub struct Tracer {
    alloc: Global,
    text: Vec<u8>,
    events: u64,
    /// The role of the event's node, if it runs.
    role: Option<ServerState>,
    /// How many messages are shown.
    sent: usize,
    /// How many executed entries are shown.
    executed: usize,
    /// How many answers to reads are shown.
    answers: usize,
}

pub fn role_text(role: ServerState) -> &'static str {
    match role {
        ServerState::Learner => "Learner",
        ServerState::Follower => "Follower",
        ServerState::Candidate => "Candidate",
        ServerState::Leader => "Leader",
    }
}

impl Tracer {
    pub fn new(alloc: Global) -> Self {
        Tracer {
            alloc,
            text: Vec::new(alloc),
            events: 0,
            role: None,
            sent: 0,
            executed: 0,
            answers: 0,
        }
    }

    /// The text.
    pub fn into_text(self) -> Vec<u8> {
        self.text
    }

    /// Writes a line if the engine's role has changed since it was last shown.
    fn show_role(&mut self, engine: &Engine<WorldConfig>) -> io::Result<()> {
        let role = engine.state.role;
        if let Some(before) = self.role
            && before != role
        {
            let id = engine.config.id;
            let before = role_text(before);
            let now = role_text(role);
            writeln!(self.text, "    node {id}: {before} -> {now}")?;
        }
        self.role = Some(role);
        Ok(())
    }

    /// Writes a line for each message not shown yet, under its number.
    fn show_messages(&mut self, bag: &[Message]) -> io::Result<()> {
        let mut number = self.sent as u64;
        for message in bag.get(self.sent..).unwrap_or(&[]) {
            number = number.saturating_add(1);
            write!(self.text, "    send {number}: ")?;
            print_message(message, &mut self.text)?;
            writeln!(self.text, "")?;
        }
        self.sent = bag.len();
        Ok(())
    }

    /// Writes a line for each executed entry not shown yet.
    fn show_executed(&mut self, executed: &[Executed]) -> io::Result<()> {
        for one in executed.get(self.executed..).unwrap_or(&[]) {
            print_entry("apply", &one.entry, &mut self.text)?;
        }
        self.executed = executed.len();
        Ok(())
    }

    /// Writes a line for each answer to a read not shown yet: the id that it has to wait for.
    fn show_answers(&mut self, answers: &[Answer]) -> io::Result<()> {
        for answer in answers.get(self.answers..).unwrap_or(&[]) {
            let log_id = DisplayOption(answer.log_id);
            writeln!(self.text, "    read waits for {log_id}")?;
        }
        self.answers = answers.len();
        Ok(())
    }

    fn show_records(&mut self, records: &Records) -> io::Result<()> {
        self.show_messages(records.messages())?;
        self.show_executed(&records.executed)?;
        self.show_answers(&records.answers)
    }

    fn show_command(
        &mut self,
        engine: &Engine<WorldConfig>,
        command: &Command<WorldConfig>,
        records: &Records,
    ) -> io::Result<()> {
        self.show_records(records)?;
        self.show_role(engine)?;
        print_command(command, &mut self.text)
    }

    /// Writes the event's line, and notes the role of its node.
    fn begin(&mut self, event: &Event, world: &World) -> io::Result<()> {
        let messages = world.messages();
        self.events = self.events.saturating_add(1);
        print_event(self.events, event, messages, &mut self.text)?;
        self.role = role_before(event, world);
        Ok(())
    }

    /// Writes what its last command did, and the event's outcome.
    fn end(&mut self, event: &Event, outcome: Outcome, world: &World) -> io::Result<()> {
        self.show_records(world.records())?;
        if let Some(engine) = engine_of(event, world) {
            self.show_role(engine)?;
        }
        print_outcome(outcome, &mut self.text)
    }

    /// Applies an event to the world, and writes its line and what happened.
    fn play(&mut self, event: &Event, world: &mut World) -> Result<(), WorldError> {
        if self.begin(event, world).is_err() {
            return Err(WorldError::OutOfMemory);
        }
        let Ok(copied) = event.copy(self.alloc) else {
            return Err(WorldError::OutOfMemory);
        };
        let outcome = world.apply_watched(copied, self)?;
        match self.end(event, outcome, world) {
            Ok(()) => Ok(()),
            Err(_) => Err(WorldError::OutOfMemory),
        }
    }

    /// Delivers the oldest undelivered message, until there is none, at most so many times.
    fn deliver_all(&mut self, most: u64, world: &mut World) -> Result<(), WorldError> {
        'each: for _ in 0..most {
            let Some(number) = world.oldest_undelivered(None) else {
                return Ok(());
            };
            self.play(&delivery(number, None, None), world)?;
        }
        Ok(())
    }

    /// Applies the event of a step, or its events, to the world, and writes their lines and what happened.
    pub fn take(&mut self, step: &Step, world: &mut World) -> Result<(), WorldError> {
        match step {
            Step::Happens(event) => self.play(event, world),
            Step::Next { link, at, stop } => {
                let number = world.oldest_undelivered(Some(*link)).unwrap_or(0);
                self.play(&delivery(number, *at, *stop), world)
            }
            Step::All(most) => self.deliver_all(*most, world),
            Step::Expects(_) => Ok(()),
        }
    }
}

fn delivery(number: u64, at: Option<u64>, stop: Option<u64>) -> Event {
    Event {
        kind: EventKind::Deliver(number),
        at,
        stop,
    }
}

/// The role of an event's node before the event's calls, if it runs then; a node that starts is a learner at first.
fn role_before(event: &Event, world: &World) -> Option<ServerState> {
    if let EventKind::Restart { .. } = event.kind {
        return Some(ServerState::Learner);
    }
    Some(engine_of(event, world)?.state.role)
}

/// The engine of an event's node.
fn engine_of<'a>(event: &Event, world: &'a World) -> Option<&'a Engine<WorldConfig>> {
    world.engine(node_of(event, world.messages())?)
}

impl Watch<Records> for Tracer {
    ghost Seen = { Unit {0} };

    ghost seen = { λ _. tt };

    ghost sees = { λ _ _. tt };

    fn see(
        &mut self,
        engine: &Engine<WorldConfig>,
        command: &Command<WorldConfig>,
        records: &Records,
    ) -> Result<(), AllocError> {
        match self.show_command(engine, command, records) {
            Ok(()) => Ok(()),
            Err(_) => Err(AllocError),
        }
    }
}
