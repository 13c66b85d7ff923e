//! Serves clients: reads their requests, and sends them their answers.

ghost use Rattle.std.specs.Prelude.{ℕ, ◌≡◌, ◌++◌, List, IfOk, OnOk};
ghost use Rattle.raft_service.specs.Serving.{AsksOrAnswers, Closes, Round, Rounds, Serves, ServesAll, Steps, front, to_client};
ghost use Rattle.raft_service.specs.declared.output.Output.{Output as Out};

use crate::intake::Intake;
use crate::output::{Output, push};
use raft_clients::Clients;
use raft_connection::{Asked, Step};
use raft_state::Items;
use std::alloc::{AllocError, Global};

/// Asks what a client's connection handed out. If that isn't taken, the client is answered at once.
fn ask(
    client: u64,
    asked: Asked,
    clients: &mut Clients,
    intake: &mut Intake,
) -> Result<(), AllocError>
    ensures { OnOk result (AsksOrAnswers client asked clients.old intake.old clients.new intake.new) }
{
    let number = asked.number;
    let is_alone = clients.is_alone(client);
    match intake.ask(client, asked, is_alone)? {
        Some(answer) => clients.answer(client, number, &answer),
        None => Ok(()),
    }
}

/// Takes a step of a client's connection. It waits while a query of the client is asked by a round: no request overtakes that.
fn step(client: u64, clients: &mut Clients, intake: &Intake) -> Result<Step, AllocError>
    ensures { IfOk result (λ came. Steps client intake.now clients.old clients.new came) }
{
    if intake.is_reading(client) {
        return Ok(Step::Waits);
    }
    clients.step(client, intake.time)
}

/// Takes a step of a client's connection, or what it sends if it waits. Answers whether more may follow.
fn take_round(
    client: u64,
    clients: &mut Clients,
    intake: &mut Intake,
    sent: &mut Vec<u8>,
) -> Result<bool, AllocError>
    ensures { OnOk result (Round client (front clients.old intake.old sent.old.items) (front clients.new intake.new sent.new.items)) }
{
    match step(client, clients, intake)? {
        Step::Answered => Ok(true),
        Step::Asks(asked) => {
            ask(client, asked, clients, intake)?;
            Ok(true)
        }
        Step::Waits => {
            let len = sent.len();
            clients.take_output(client, sent)?;
            Ok(sent.len() > len)
        }
    }
}

/// Takes steps of a client's connection, and what it sends, until it waits.
fn run(
    client: u64,
    clients: &mut Clients,
    intake: &mut Intake,
    sent: &mut Vec<u8>,
) -> Result<(), AllocError>
    ensures { OnOk result ((n : ℕ) × Rounds client n (front clients.old intake.old sent.old.items) (front clients.new intake.new sent.new.items)) }
{
    for _ in 0..clients.rounds() {
        if !take_round(client, clients, intake, sent)? {
            break;
        }
    }
    Ok(())
}

/// Bytes leave for a client, if there are some.
fn send(client: u64, sent: Vec<u8>, outputs: &mut Vec<Output>) -> Result<(), AllocError>
    ensures { OnOk result (outputs.new.items ≡ outputs.old.items ++ to_client client sent.items) }
{
    if sent.is_empty() {
        return Ok(());
    }
    let bytes = Items::from_vec(sent);
    push(Output::ToClient { client, bytes }, outputs)
}

/// A client is disconnected, if its connection is to be closed.
fn close(client: u64, clients: &mut Clients, outputs: &mut Vec<Output>) -> Result<(), AllocError>
    ensures { OnOk result ((out : List Out) × Closes client clients.old clients.new out × (outputs.new.items ≡ outputs.old.items ++ out)) }
{
    if clients.is_closing(client) {
        clients.disconnect(client);
        push(Output::Close { client }, outputs)?;
    }
    Ok(())
}

/// Reads the requests of a client, and sends it its answers. One that is to be closed is disconnected.
pub(crate) fn serve(
    alloc: Global,
    client: u64,
    clients: &mut Clients,
    intake: &mut Intake,
    outputs: &mut Vec<Output>,
) -> Result<(), AllocError>
    ensures { OnOk result (Serves client clients.old intake.old outputs.old.items clients.new intake.new outputs.new.items) }
{
    let mut sent = Vec::new(alloc);
    run(client, clients, intake, &mut sent)?;
    send(client, sent, outputs)?;
    close(client, clients, outputs)
}

/// Serves clients, one after another.
pub(crate) fn serve_all(
    alloc: Global,
    served: Vec<u64>,
    clients: &mut Clients,
    intake: &mut Intake,
    outputs: &mut Vec<Output>,
) -> Result<(), AllocError>
    ensures { OnOk result (ServesAll served.items clients.old intake.old outputs.old.items clients.new intake.new outputs.new.items) }
{
    for client in served {
        serve(alloc, client, clients, intake, outputs)?;
    }
    Ok(())
}
