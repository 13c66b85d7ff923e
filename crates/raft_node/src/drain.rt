//! How a node executes its queue.

ghost use Rattle.std.specs.Prelude.{◌≡◌, OnOk, true, false};
ghost use Rattle.std.specs.List.{fold};
ghost use Rattle.std.specs.Option.{option_to_list};
ghost use Rattle.raft_store.specs.Entries.{entry_meaning};
ghost use Rattle.raft_store.specs.Mirror.{IsGapless};
ghost use Rattle.raft_node.specs.Commands.{all_executed, next_command_of};
ghost use Rattle.raft_node.specs.Events.{scene, scene_of, work_of};
ghost use Rattle.raft_node.specs.MayKeep.{CanStoreNext, KeepsAlong};
ghost use Rattle.raft_node.specs.Runs.{whole_logs};
ghost use Rattle.raft_node.specs.Safety.{RecordsGrow};
ghost use Rattle.raft_node.specs.Work.{weight, work_step, worked, is_idle, stop_after, stops, one_less};
ghost use Rattle.raft_calls.specs.Held.{IsReadyWhereRunning};

use crate::execute::execute;
use crate::node::{Node, Turn};
use crate::record::Records;
use crate::watch::Watch;
use raft_calls::feed::{feed_engine, feed_of};
use std::alloc::AllocError;

/// Whether the node stops with this command. A stop after 0 commands is none.
fn stops(left: &Option<u64>) -> bool
    ensures { result ≡ stops (stop_after left.now) }
{
    match left {
        Some(commands) => *commands == 1,
        None => false,
    }
}

/// After how many more commands the node stops, once it hasn't stopped with this one.
fn one_less(left: Option<u64>) -> Option<u64>
    requires { stops (stop_after left) ≡ false }
    ensures { stop_after result ≡ one_less (stop_after left) }
{
    match left {
        Some(commands) => Some(commands.saturating_sub(1)),
        None => None,
    }
}

impl Node {
    /// Whether nothing is left to do: the node has stopped, or its queue is empty.
    fn is_idle(&self) -> bool
        ensures { result ≡ is_idle self.now.engine }
    {
        match &self.running {
            Some(running) => running.engine.output.iter_commands().next().is_none(),
            None => true,
        }
    }

    /// Shows the next command, if there is one.
    fn show_next<W: Watch<Records>>(
        &self,
        records: &Records,
        watch: &mut W,
    ) -> Result<(), AllocError>
        ensures { OnOk result (W.seen watch.new ≡ fold W.sees (W.seen watch.old) (option_to_list (next_command_of self.now.engine))) }
    {
        let Some(running) = &self.running else {
            return Ok(());
        };
        match running.engine.output.iter_commands().next() {
            Some(command) => watch.see(&running.engine, command, records),
            None => Ok(()),
        }
    }

    /// Executes the first command; then stops the node, or feeds the command back.
    #[tactic(auto, using(raft_calls::proofs::Ready::pop_ready, raft_calls::proofs::Ready::pop_held))]
    fn advance(
        &mut self,
        turn: &Turn,
        records: &mut Records,
        left: &mut Option<u64>,
    ) -> Result<(), AllocError>
        requires ready { IsReadyWhereRunning self.old.engine }
        requires gapless { IsGapless entry_meaning self.old.store }
        requires next { CanStoreNext self.old.engine self.old.store }
        requires grows { RecordsGrow (work_step whole_logs turn.now (work_of left.old (scene self.old records.old))).effects.records }
        ensures id { OnOk result (self.new.id ≡ self.old.id) }
        ensures moment { OnOk result (self.new.moment ≡ self.old.moment) }
        ensures work { OnOk result (work_of left.new (scene self.new records.new)
            ≡ work_step whole_logs turn.now (work_of left.old (scene self.old records.old))) }
    {
        let Some(running) = self.running.as_mut() else {
            return Ok(());
        };
        let Some(command) = running.engine.output.pop_command() else {
            return Ok(());
        };
        let feed = feed_of(&command);
        execute(turn, command, running, &mut self.store, records)?;
        if stops(left) {
            *left = None;
            self.stop();
            return Ok(());
        }
        feed_engine(feed, turn.moment, &mut running.engine)?;
        *left = one_less(*left);
        Ok(())
    }

    /// Executes the queued commands until none is left or the node stops; each is shown before it is executed.
    pub(crate) fn drain<W: Watch<Records>>(
        &mut self,
        turn: &Turn,
        stop: Option<u64>,
        records: &mut Records,
        watch: &mut W,
    ) -> Result<(), AllocError>
        requires ready { IsReadyWhereRunning self.old.engine }
        requires keeps { KeepsAlong turn.now (work_of stop (scene self.old records.old)) }
        ensures idle { OnOk result (is_idle self.new.engine ≡ true) }
        ensures work { OnOk result (scene self.new records.new ≡ scene_of self.old
            (worked whole_logs (weight (work_of stop (scene self.old records.old))) turn.now
            (work_of stop (scene self.old records.old)))) }
        ensures watched { OnOk result (W.seen watch.new
            ≡ fold W.sees (W.seen watch.old) (all_executed whole_logs turn.now (work_of stop (scene self.old records.old)))) }
    {
        let mut left = stop;
        'queue: while !self.is_idle() {
            self.show_next(records, watch)?;
            self.advance(turn, records, &mut left)?;
        }
        Ok(())
    }
}
