//! What leaves once steps wait for no record.

ghost use Rattle.std.specs.Prelude.{◌≡◌, ◌++◌, ◌∷◌, [], IfOk, List, None, OnOk, Some, map};
ghost use Rattle.raft_answers.specs.Answers.{settled};
ghost use Rattle.raft_peers.specs.Sends.{Sends};
ghost use Rattle.raft_peers.specs.declared.output.Output.{Output};
ghost use Rattle.raft_core.specs.Outputs.{executed_out, executed_outputs, install, reads_out, replies_out, said_outputs, settled_all};
ghost use Rattle.raft_reads.specs.Reads.{read_left, read_replies, with_left};
ghost use Rattle.raft_core.specs.Outputs.{executed_after, handed_after};

use raft_answers::{Reply, Requests};
use raft_node::record::Executed;
use raft_peers::output::{Output, push};
use raft_peers::parts::Outgoing;
use raft_peers::prepare::{Preparing, prepare_some};
use raft_peers::raft_packed_server::Said;
use raft_peers::raft_packed_server::raft_packed::Machine;
use raft_peers::raft_packed_server::raft_packed_node::PackedInstalled;
use raft_peers::send::{Sender, send_all};
use raft_reads::Reads;
use std::alloc::{AllocError, Global};

/// Snapshots are to be installed.
fn install_all<M: Machine>(
    installed: Vec<PackedInstalled<M>>,
    outputs: &mut Vec<Output<M>>,
) -> Result<(), AllocError>
    ensures { OnOk result (outputs.new.items ≡ outputs.old.items ++ map install installed.items) }
{
    for one in installed {
        push(Output::Install(one.snapshot), outputs)?;
    }
    Ok(())
}

/// Replies leave.
pub fn reply_all<M: Machine>(
    replies: Vec<Reply>,
    outputs: &mut Vec<Output<M>>,
) -> Result<(), AllocError>
    ensures { OnOk result (outputs.new.items ≡ outputs.old.items ++ replies_out replies.items) }
{
    for reply in replies {
        push(Output::Reply(reply), outputs)?;
    }
    Ok(())
}

/// Answers to reads leave.
pub fn read_all<M: Machine>(
    replies: Vec<Reply>,
    outputs: &mut Vec<Output<M>>,
) -> Result<(), AllocError>
    ensures { OnOk result (outputs.new.items ≡ outputs.old.items ++ reads_out replies.items) }
{
    for reply in replies {
        push(Output::Read(reply), outputs)?;
    }
    Ok(())
}

/// The index of the last entry that was to be executed, after these more.
fn last_index(executed: &[Executed], last: Option<u64>) -> Option<u64>
    ensures { result ≡ executed_after executed.now last }
{
    match executed {
        [.., one] => Some(one.entry.log_id.index),
        [] => last,
    }
}

/// The index of the last entry that is to be executed, once this leaves too.
fn last_executed<M: Machine>(said: &Said<M>, last: Option<u64>) -> Option<u64>
    ensures { result ≡ executed_after said.now.executed last }
{
    last_index(&said.rest.executed, last_index(&said.batch.executed, last))
}

/// An index up to which all is handed out: it isn't known once a snapshot is put in place of what was there.
fn unless_installed<M: Machine>(installed: &[PackedInstalled<M>], index: Option<u64>) -> Option<u64>
    ensures { result ≡ (elim installed.now [ [] ↦ index | y ∷ ys ↦ None ]) }
{
    if installed.is_empty() { index } else { None }
}

/// The index up to which all is handed out, once this leaves too.
fn handed_after<M: Machine>(said: &Said<M>, last: Option<u64>) -> Option<u64>
    ensures { result ≡ handed_after said.now last }
{
    let index = unless_installed(&said.rest.installed, last_executed(said, last));
    unless_installed(&said.batch.installed, index)
}

/// An entry is to be executed, and the requests that wait for it are answered.
fn execute<M: Machine>(
    alloc: Global,
    one: Executed,
    requests: &mut Requests,
    outputs: &mut Vec<Output<M>>,
) -> Result<(), AllocError>
    ensures left { OnOk result (requests.new ≡ settled one.entry.log_id requests.old) }
    ensures outputs { OnOk result (outputs.new.items ≡ outputs.old.items ++ executed_out one.entry requests.old.proposed) }
{
    let mut replies = Vec::new(alloc);
    requests.settle(&one.entry.log_id, &mut replies)?;
    push(Output::Execute(one.entry), outputs)?;
    reply_all(replies, outputs)
}

/// Entries are to be executed, in order, and the requests that wait for them are answered.
fn execute_all<M: Machine>(
    alloc: Global,
    executed: Vec<Executed>,
    requests: &mut Requests,
    outputs: &mut Vec<Output<M>>,
) -> Result<(), AllocError>
    ensures left { OnOk result (requests.new ≡ settled_all (map (λ x. x.entry) executed.items) requests.old) }
    ensures outputs { OnOk result
        (outputs.new.items ≡ outputs.old.items ++ executed_outputs (map (λ x. x.entry) executed.items) requests.old.proposed) }
{
    for one in executed {
        execute(alloc, one, requests, outputs)?;
    }
    Ok(())
}

/// What steps say leaves: messages, snapshots to install, and entries to execute with the answers of those who wait for
/// them.
fn release<M: Machine>(
    alloc: Global,
    sender: Sender,
    said: Said<M>,
    requests: &mut Requests,
    preparing: &mut Vec<Preparing<M>>,
    going: &mut Vec<Outgoing>,
) -> Result<Vec<Output<M>>, AllocError>
    ensures left { OnOk result (requests.new ≡ settled_all (map (λ x. x.entry) said.executed) requests.old) }
    ensures outputs { IfOk result (λ outputs. (frames : List (Output M))
        × Sends M.application M.codec sender.start said.bag preparing.old.items going.old.items frames preparing.new.items going.new.items
        × (outputs.items ≡ said_outputs frames said requests.old.proposed)) }
{
    let Said { batch, rest } = said;
    let mut outputs = Vec::new(alloc);
    send_all(alloc, sender, batch.messages, preparing, &mut outputs)?;
    send_all(alloc, sender, rest.messages, preparing, &mut outputs)?;
    prepare_some(
        alloc,
        sender.start,
        sender.most,
        sender.each,
        preparing,
        going,
        &mut outputs,
    )?;
    install_all(batch.installed, &mut outputs)?;
    install_all(rest.installed, &mut outputs)?;
    execute_all(alloc, batch.executed, requests, &mut outputs)?;
    execute_all(alloc, rest.executed, requests, &mut outputs)?;
    Ok(outputs)
}

/// The node's answers are among what leaves, if there are some.
#[tactic(auto, using(raft_reads::proofs::Reading::left_both))]
fn note_answers<M: Machine>(said: &Said<M>, reads: &mut Reads)
    ensures { reads.new ≡ with_left said.now.answers reads.old }
{
    reads.note_left(&said.batch.answers);
    reads.note_left(&said.rest.answers);
}

/// What steps say leaves, and behind it the answers to the reads of each round that is over then. `executed` is the index of the
/// last entry that was handed out, if no snapshot was installed with it or after it.
pub fn leave<M: Machine>(
    alloc: Global,
    sender: Sender,
    said: Said<M>,
    requests: &mut Requests,
    executed: &mut Option<u64>,
    reads: &mut Reads,
    preparing: &mut Vec<Preparing<M>>,
    going: &mut Vec<Outgoing>,
) -> Result<Vec<Output<M>>, AllocError>
    ensures requests { OnOk result (requests.new ≡ settled_all (map (λ x. x.entry) said.executed) requests.old) }
    ensures executed { OnOk result (executed.new ≡ handed_after said executed.old) }
    ensures reads { OnOk result (reads.new ≡ read_left (handed_after said executed.old) (with_left said.answers reads.old)) }
    ensures outputs { IfOk result (λ outputs. (frames : List (Output M))
        × Sends M.application M.codec sender.start said.bag preparing.old.items going.old.items frames preparing.new.items going.new.items
        × (outputs.items ≡ said_outputs frames said requests.old.proposed
        ++ reads_out (read_replies (handed_after said executed.old) (with_left said.answers reads.old)))) }
{
    let last = handed_after(&said, *executed);
    *executed = last;
    note_answers(&said, reads);
    let mut outputs = release(alloc, sender, said, requests, preparing, going)?;
    let mut told = Vec::new(alloc);
    reads.answer(last, &mut told)?;
    read_all(told, &mut outputs)?;
    Ok(outputs)
}
