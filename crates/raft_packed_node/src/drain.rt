//! How a node executes its queue.

ghost use Rattle.std.specs.Prelude.{◌≡◌, IfErr, OnOk, true, false};
ghost use Rattle.std.specs.List.{fold};
ghost use Rattle.std.specs.Option.{option_to_list};
ghost use Rattle.raft_calls.specs.Held.{IsReadyWhereRunning};
ghost use Rattle.raft_node.specs.Commands.{next_command_of};
ghost use Rattle.raft_node.specs.Work.{is_idle, one_less, stop_after, stops};
ghost use Rattle.proof_packed.specs.Nodes.{packed_scene_of, packed_work_of, packed_work_step, packed_worked};
ghost use Rattle.raft_packed_node.specs.Effects.{all_executed, scene, weight};
ghost use Rattle.raft_packed_node.specs.Held.{RunsOut};

use crate::error::StepError;
use crate::execute::execute;
use crate::message::PackedTurn;
use crate::node::Node;
use crate::outbox::Outbox;
use raft_calls::feed::{feed_engine, feed_of};
use raft_node::watch::Watch;
use raft_packed::Machine;
use std::alloc::AllocError;

/// Whether the node stops with this command. A stop after 0 commands is none.
fn stops(left: &Option<u64>) -> bool
    ensures { result ≡ stops (stop_after left.now) }
{
    match left {
        Some(commands) => *commands == 1,
        None => false,
    }
}

/// After how many more commands the node stops, once it hasn't stopped with this one.
fn one_less(left: Option<u64>) -> Option<u64>
    requires { stops (stop_after left) ≡ false }
    ensures { stop_after result ≡ one_less (stop_after left) }
{
    match left {
        Some(commands) => Some(commands.saturating_sub(1)),
        None => None,
    }
}

impl<M: Machine> Node<M> {
    /// Whether nothing is left to do: the node has stopped, or its queue is empty.
    fn is_idle(&self) -> bool
        ensures { result ≡ is_idle self.now.engine }
    {
        match &self.running {
            Some(running) => running.engine.output.iter_commands().next().is_none(),
            None => true,
        }
    }

    /// Shows the next command, if there is one.
    fn show_next<W: Watch<Outbox<M>>>(
        &self,
        records: &Outbox<M>,
        watch: &mut W,
    ) -> Result<(), AllocError>
        ensures { OnOk result (W.seen watch.new ≡ fold W.sees (W.seen watch.old) (option_to_list (next_command_of self.now.engine))) }
    {
        let Some(running) = &self.running else {
            return Ok(());
        };
        match running.engine.output.iter_commands().next() {
            Some(command) => watch.see(&running.engine, command, records),
            None => Ok(()),
        }
    }

    /// Executes the first command; then stops the node, or feeds the command back.
    fn advance(
        &mut self,
        turn: &PackedTurn<M>,
        records: &mut Outbox<M>,
        left: &mut Option<u64>,
    ) -> Result<(), StepError>
        requires { IsReadyWhereRunning self.old.engine }
        ensures id { OnOk result (self.new.id ≡ self.old.id) }
        ensures moment { OnOk result (self.new.moment ≡ self.old.moment) }
        ensures work { OnOk result (packed_work_of M.application left.new (scene self.new records.new)
            ≡ packed_work_step M.application turn.now.turn turn.now.brought (packed_work_of M.application left.old (scene self.old records.old))) }
        ensures out { IfErr result RunsOut }
    {
        let Some(running) = self.running.as_mut() else {
            return Ok(());
        };
        let Some(command) = running.engine.output.pop_command() else {
            return Ok(());
        };
        let feed = feed_of(&command);
        execute(turn, command, running, &mut self.store, records)?;
        if stops(left) {
            *left = None;
            self.stop();
            return Ok(());
        }
        feed_engine(feed, turn.turn.moment, &mut running.engine)?;
        *left = one_less(*left);
        Ok(())
    }

    /// Executes the queued commands until none is left or the node stops; each is shown before it is executed.
    pub(crate) fn drain<W: Watch<Outbox<M>>>(
        &mut self,
        turn: &PackedTurn<M>,
        stop: Option<u64>,
        records: &mut Outbox<M>,
        watch: &mut W,
    ) -> Result<(), StepError>
        requires { IsReadyWhereRunning self.old.engine }
        ensures idle { OnOk result (is_idle self.new.engine ≡ true) }
        ensures work { OnOk result (scene self.new records.new ≡ packed_scene_of M.application self.old
            (packed_worked M.application turn.now.turn turn.now.brought (weight (packed_work_of M.application stop (scene self.old records.old)))
            (packed_work_of M.application stop (scene self.old records.old)))) }
        ensures watched { OnOk result (W.seen watch.new ≡ fold W.sees (W.seen watch.old)
            (all_executed M.application turn.now.turn turn.now.brought (packed_work_of M.application stop (scene self.old records.old)))) }
        ensures out { IfErr result RunsOut }
    {
        let mut left = stop;
        'queue: while !self.is_idle() {
            self.show_next(records, watch)?;
            self.advance(turn, records, &mut left)?;
        }
        Ok(())
    }
}
