//! A service behind calls of numbers and bytes.

ghost use Rattle.std.specs.Prelude.{◌≡◌, ◌≤◌, ◌++◌, [], None, true, if◌then◌else◌, IfOk, OnOk, length, take, drop, min};
ghost use Rattle.service_host.specs.Errors.{ends, number_of};
ghost use Rattle.service_host.specs.Frames.{frames};
ghost use Rattle.service_host.specs.Host.{Does, Feeding, Serves, unread};
ghost use Rattle.service_host.specs.declared.inputs.Input.TheVariants.{BeginLog, Idle, TakeOver};

use crate::error::HostError;
use crate::frames::{OutputKind, write_all, write_output, write_status};
use crate::inputs::{Input, input_of};
use crate::pieces::Pieces;
use crate::settings::read_settings;
use raft_service::raft_core::FrameError;
use raft_service::{Fed, OpenedService, Output, Service, Settings};
use std::alloc::{AllocError, Global};

/// A service that is open, and what is left of a new log's bytes.
#[derive(Drop)]
struct Running {
    service: Service,
    new_log: Pieces,
}

/// One service, or none before it is opened and after it has stopped; and what the last call put out.
#[derive(Drop)]
pub struct Host {
    alloc: Global,
    settings: Option<Settings>,
    running: Option<Running>,
    out: Vec<u8>,
    /// How many bytes of that were read.
    read: usize,
}

/// A refusal of a peer's frame.
fn refused_frame(error: FrameError) -> HostError {
    match error {
        FrameError::Busy => HostError::Busy,
        FrameError::Core(error) => HostError::Stopped(error),
        other => HostError::Frame(other),
    }
}

/// What a client's bytes come to.
fn feed(
    service: &mut Service,
    client: u64,
    bytes: &[u8],
    out: &mut Vec<u8>,
) -> Result<(), HostError>
    requires { out.old.items ≡ [] }
    ensures { OnOk result (Feeding client bytes.now service.old service.new out.new.items) }
{
    let Fed { taken, outputs } = service.client_bytes(client, bytes)?;
    write_output(out, OutputKind::Taken, taken as u64, &[])?;
    write_all(out, &outputs)?;
    Ok(())
}

/// What the service tells of itself.
fn tell(alloc: Global, service: &Service, out: &mut Vec<u8>) -> Result<(), HostError> {
    let status = service.status()?;
    write_status(alloc, out, &status)?;
    Ok(())
}

/// What a service puts out.
fn put(outputs: Vec<Output>, out: &mut Vec<u8>) -> Result<(), HostError>
    ensures { OnOk result (out.new.items ≡ out.old.items ++ frames outputs.items) }
{
    write_all(out, &outputs)?;
    Ok(())
}

/// Begins a new log, if it is time for that.
fn begin(running: &mut Running, out: &mut Vec<u8>) -> Result<(), HostError>
    requires { out.old.items ≡ [] }
    ensures { OnOk result (Does BeginLog running.old running.new out.new.items) }
{
    if let Some(log) = running.service.begin_log() {
        write_output(out, OutputKind::NewLog, log.end, &[])?;
        running.new_log.begin(log);
    }
    Ok(())
}

/// The new log takes the old one's place, if one is on its way.
fn take_over(running: &mut Running, out: &mut Vec<u8>) -> Result<(), HostError>
    requires { out.old.items ≡ [] }
    ensures { OnOk result (Does TakeOver running.old running.new out.new.items) }
{
    if let Some(end) = running.service.take_over() {
        write_output(out, OutputKind::TakenOver, end, &[])?;
        running.new_log.spend();
    }
    Ok(())
}

/// Lets a service do a little, and tells whether more is left.
fn idle(service: &mut Service, out: &mut Vec<u8>) -> Result<(), HostError>
    requires { out.old.items ≡ [] }
    ensures { OnOk result (Serves Idle service.old service.new out.new.items) }
{
    if service.idle()? {
        write_output(out, OutputKind::More, 0, &[])?;
    }
    Ok(())
}

/// Hands an input to the service, which concerns no new log.
fn serve(
    alloc: Global,
    service: &mut Service,
    input: Input<'_>,
    out: &mut Vec<u8>,
) -> Result<(), HostError>
    requires { out.old.items ≡ [] }
    ensures { OnOk result (Serves input.entry service.old service.new out.new.items) }
{
    match input {
        Input::Connect(client) => service.connect(client).map_err(HostError::Connect),
        Input::Disconnect(client) => {
            service.disconnect(client);
            Ok(())
        }
        Input::Client { client, bytes } => feed(service, client, bytes, out),
        Input::Initialize => Ok(service.initialize()?),
        Input::Members { voters, learners } => service
            .change_members(voters, learners)
            .map_err(HostError::Members),
        Input::Status => tell(alloc, service, out),
        Input::Peer(bytes) => put(service.receive(bytes).map_err(refused_frame)?, out),
        Input::Tick {
            elapsed,
            random,
            now,
        } => put(service.tick(elapsed, random, now)?, out),
        Input::Write => put(service.write()?, out),
        Input::Flushed(position) => put(service.flushed(position)?, out),
        Input::Idle => idle(service, out),
        _ => Err(HostError::Misplaced),
    }
}

/// Hands an input to a service that is open.
fn hand_in(
    alloc: Global,
    running: &mut Running,
    input: Input<'_>,
    out: &mut Vec<u8>,
) -> Result<(), HostError>
    requires { out.old.items ≡ [] }
    ensures { OnOk result (Does input.entry running.old running.new out.new.items) }
{
    match input {
        Input::BeginLog => begin(running, out),
        Input::LogPiece => Ok(running.new_log.put(out)?),
        Input::TakeOver => take_over(running, out),
        Input::GiveUpLog => {
            running.service.give_up_log();
            running.new_log.spend();
            Ok(())
        }
        input => {
            running.new_log.free_some();
            serve(alloc, &mut running.service, input, out)
        }
    }
}

/// Opens a service.
fn open(
    alloc: Global,
    settings: Settings,
    log: &[u8],
    out: &mut Vec<u8>,
) -> Result<Service, HostError> {
    let OpenedService { service, end } = Service::open(alloc, settings, log).map_err(
        HostError::Open,
    )?;
    write_output(out, OutputKind::Opened, end as u64, &[])?;
    Ok(service)
}

/// Adds why a call was refused.
fn write_error(alloc: Global, out: &mut Vec<u8>, error: &HostError) -> Result<(), AllocError> {
    let text = format!(in alloc; "{error}")?;
    write_output(
        out,
        OutputKind::Error,
        u64::from(error.code()),
        text.as_bytes(),
    )
}

impl Host {
    /// No service.
    pub fn new(alloc: Global) -> Self {
        Host {
            alloc,
            settings: None,
            running: None,
            out: Vec::new(alloc),
            read: 0,
        }
    }

    /// Hands in an input if no service is open.
    fn prepare(&mut self, input: Input<'_>) -> Result<(), HostError> {
        match input {
            Input::Settings(bytes) => {
                let settings = read_settings(self.alloc, bytes)?;
                self.settings = Some(settings);
                Ok(())
            }
            Input::Open(log) => {
                let settings = self.settings.take().ok_or(HostError::Misplaced)?;
                let service = open(self.alloc, settings, log, &mut self.out)?;
                self.running = Some(Running {
                    service,
                    new_log: Pieces::none(self.alloc),
                });
                Ok(())
            }
            _ => Err(HostError::Misplaced),
        }
    }

    fn handle(
        &mut self,
        number: u32,
        first: u64,
        second: u64,
        bytes: &[u8],
    ) -> Result<(), HostError>
        requires { self.old.out.items ≡ [] }
    {
        let input = input_of(self.alloc, number, first, second, bytes)?;
        match &mut self.running {
            Some(running) => hand_in(self.alloc, running, input, &mut self.out),
            None => self.prepare(input),
        }
    }

    /// Ends a call that was refused: what it put out is why, or nothing if there is no memory for that.
    fn fail(&mut self, error: HostError) -> u32
        ensures number { result ≡ number_of error }
        ensures bound { result ≤ 10 }
        ensures running { self.new.running ≡ (if ends result then None else self.old.running) }
    {
        if error.ends() {
            self.running = None;
        }
        self.out.clear();
        if write_error(self.alloc, &mut self.out, &error).is_err() {
            self.out.clear();
        }
        error.code()
    }

    /// Hands in an input ([`input_of`]), and returns 0, or the code of the refusal ([`HostError::code`]). What it puts out is read
    /// by [`Host::read`]; what the call before put out is gone.
    pub fn call(&mut self, number: u32, first: u64, second: u64, bytes: &[u8]) -> u32
        ensures bound { result ≤ 10 }
        ensures gone { ends result ≡ true → self.new.running ≡ None }
    {
        self.out.clear();
        self.read = 0;
        match self.handle(number, first, second, bytes) {
            Ok(()) => 0,
            Err(error) => self.fail(error),
        }
    }

    /// Reads the next bytes of what the last call put out, as many as there is room for, and returns how many: 0 at the end.
    pub fn read(&mut self, room: &mut [u8]) -> usize
        ensures count { result ≡ min (length room.old) (length (unread self.old)) }
        ensures bound { result ≤ length room.old }
        ensures bytes { take result room.new ≡ take result (unread self.old) }
        ensures left { unread self.new ≡ drop result (unread self.old) }
    {
        let left = self.out.len().saturating_sub(self.read);
        let len = left.min(room.len());
        if len > 0 {
            room[..len].copy_from_slice(&self.out[self.read..self.read + len]);
            self.read += len;
        }
        len
    }

    /// The service is gone, and its memory is free.
    pub fn close(&mut self) {
        self.settings = None;
        self.running = None;
        self.out = Vec::new(self.alloc);
        self.read = 0;
    }
}
