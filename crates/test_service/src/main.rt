//! Plays the cases of `data/`, of the key-value service: of the kind `resp`, what is read of a client's bytes, and how
//! replies are written (the head of [`resp`] lists the lines of their texts); of the kind `connection`, connections whose
//! clients send bytes, and what is sent to them ([`connection`]); of the kind `machine`, commands on the state machine
//! ([`machine`]).
#![tactic(auto)]

mod connection;
mod machine;
mod resp;

use anyhow::{Result, bail};
use std::alloc::Global;
use test_cases::{Player, play_lines, run};

/// Plays the texts of each kind.
struct Service;

impl Player for Service {
    fn play(&self, alloc: Global, kind: &str, text: &[u8], given: &mut Vec<u8>) -> Result<()> {
        match kind {
            "resp" => play_lines(alloc, &mut resp::Client::new(alloc), text, given),
            "connection" => play_lines(alloc, &mut connection::Desk::new(alloc)?, text, given),
            "machine" => play_lines(alloc, &mut machine::Desk::new(alloc)?, text, given),
            _ => bail!("no such kind: {kind}"),
        }
    }
}

fn main(rt: HostRuntime) -> Result<()> {
    run(&rt, &Service)
}
