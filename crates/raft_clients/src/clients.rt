//! The connections of clients.

ghost use Rattle.std.specs.Prelude.{◌≡◌, ◌++◌, IfOk, OnErr, OnOk};
ghost use Rattle.std.specs.BTreeMap.{btree_map_len};
ghost use Rattle.raft_connection.specs.Connection.{step};
ghost use Rattle.raft_connection.specs.declared.connection.Step.TheVariants.{Waits};
ghost use Rattle.raft_clients.specs.Clients.{Answers, Connects, Disconnects, Gives, Keeps, Nobody, Sends, Takes, Through, is_alone_at};
ghost use Rattle.raft_clients.specs.Clients.{is_closing_at, output_at};

use crate::error::ConnectError;
use raft_connection::{Answer, AnswerError, Connection, Settings, Step};
use std::alloc::{AllocError, Global};
use std::collections::BTreeMap;

/// The connections of clients, by their numbers.
#[derive(Drop)]
pub struct Clients {
    alloc: Global,
    settings: Settings,
    /// The most connections.
    limit: usize,
    /// The least number that the next client may have.
    next: u64,
    connections: BTreeMap<u64, Connection>,
}

/// Gives a connection an answer. One that it doesn't wait for changes nothing.
fn give(
    alloc: Global,
    connection: &mut Connection,
    number: u64,
    answer: &Answer,
) -> Result<(), AllocError>
    ensures { OnOk result (Gives number answer.now connection.old connection.new) }
{
    match connection.answer(alloc, number, answer) {
        Err(AnswerError::OutOfMemory) => Err(AllocError),
        _ => Ok(()),
    }
}

impl Clients {
    /// Nobody is connected. So many may be.
    pub fn new(alloc: Global, settings: Settings, limit: usize) -> Self
        ensures { Nobody settings limit result }
    {
        Clients {
            alloc,
            settings,
            limit,
            next: 0,
            connections: BTreeMap::new(alloc),
        }
    }

    /// How many are connected.
    pub fn len(&self) -> usize
        ensures { result ≡ btree_map_len self.now.connections }
    {
        self.connections.len()
    }

    /// A client connects. Its number is greater than those of all that were connected before. Refusals, which change nothing:
    ///
    /// - `NotNew`: a client of this number, or of a greater one, was connected before, or none could have a greater one,
    /// - `TooMany`: as many are connected as may be,
    /// - `OutOfMemory`.
    pub fn connect(&mut self, client: u64) -> Result<(), ConnectError>
        ensures ok { OnOk result (Connects client self.old self.new) }
        ensures err { OnErr result (Keeps self.old self.new) }
    {
        if client < self.next {
            return Err(ConnectError::NotNew);
        }
        if self.connections.len() >= self.limit {
            return Err(ConnectError::TooMany);
        }
        let Some(next) = client.checked_add(1) else {
            return Err(ConnectError::NotNew);
        };
        let connection = Connection::new(self.alloc, &self.settings, client);
        match self.connections.insert(client, connection) {
            Ok(_) => {
                self.next = next;
                Ok(())
            }
            Err(_) => Err(ConnectError::OutOfMemory),
        }
    }

    /// A client is gone, and so is its connection.
    pub fn disconnect(&mut self, client: u64)
        ensures { Disconnects client self.old self.new }
    {
        self.connections.remove(&client);
    }

    /// Takes bytes of a client, and says how many. Those of one that isn't connected are dropped.
    pub fn receive(&mut self, client: u64, bytes: &[u8]) -> Result<usize, AllocError>
        ensures { IfOk result (λ count. Takes client bytes.now self.old self.new count) }
    {
        match self.connections.get_mut(&client) {
            Some(connection) => connection.receive(&self.settings.limits, bytes),
            None => Ok(bytes.len()),
        }
    }

    /// Takes a step of a client's connection ([`Connection::step`]). That of one that isn't connected waits.
    pub fn step(&mut self, client: u64, now: u64) -> Result<Step, AllocError>
        ensures { IfOk result (λ came. Through client (step self.old.settings now) Waits self.old self.new came) }
    {
        match self.connections.get_mut(&client) {
            Some(connection) => connection.step(self.alloc, &self.settings, now),
            None => Ok(Step::Waits),
        }
    }

    /// Answers a request of a client, if it is still connected.
    pub fn answer(&mut self, client: u64, number: u64, answer: &Answer) -> Result<(), AllocError>
        ensures { OnOk result (Answers client number answer.now self.old self.new) }
    {
        match self.connections.get_mut(&client) {
            Some(connection) => give(self.alloc, connection, number, answer),
            None => Ok(()),
        }
    }

    /// Appends the bytes to send a client next. There are none for one that isn't connected.
    pub fn take_output(&mut self, client: u64, out: &mut Vec<u8>) -> Result<(), AllocError>
        ensures taken { OnOk result (Sends client self.old self.new) }
        ensures sent { OnOk result (out.new.items ≡ out.old.items ++ output_at self.old client) }
    {
        match self.connections.get_mut(&client) {
            Some(connection) => connection.take_output(out),
            None => Ok(()),
        }
    }

    /// Whether a client is connected, has exactly one request whose answer it wasn't sent, and no bytes of it wait to be read.
    pub fn is_alone(&self, client: u64) -> bool
        ensures { result ≡ is_alone_at self.now client }
    {
        match self.connections.get(&client) {
            Some(connection) => connection.is_alone(),
            None => false,
        }
    }

    /// Whether a client's connection is to be closed once all that was taken is sent.
    pub fn is_closing(&self, client: u64) -> bool
        ensures { result ≡ is_closing_at self.now client }
    {
        match self.connections.get(&client) {
            Some(connection) => connection.is_closing(),
            None => false,
        }
    }

    /// The most steps that one client's bytes lead to.
    pub fn rounds(&self) -> usize {
        self.settings
            .limits
            .received
            .saturating_mul(2)
            .saturating_add(2)
    }
}
