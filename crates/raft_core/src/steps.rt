//! Steps at a server.

ghost use Rattle.std.specs.Prelude.{OnOk, IfOk, map};
ghost use Rattle.raft_peers.specs.raft_packed_server.Views.{step_of};
ghost use Rattle.raft_core.specs.Steps.{TakesAct, TakesActs, TakesStep, act_of};

use crate::clock::Clock;
use crate::error::CoreError;
use crate::moves::{Move, act_of};
use raft_node::act::Act;
use raft_peers::raft_packed_server::Server;
use raft_peers::raft_packed_server::raft_packed::Machine;
use raft_peers::raft_packed_server::raft_packed_node::PackedAct;
use raft_schedule::event::Outcome;

/// Takes an act as a step, with the snapshot that it brings, at the clock's moment.
pub fn take_with<M: Machine>(
    server: &mut Server<M>,
    act: PackedAct<M>,
    clock: &Clock,
) -> Result<Outcome, CoreError>
    ensures { IfOk result (λ outcome.
        TakesStep M.application (step_of M.application act clock.now.moment) server.old outcome server.new) }
{
    Ok(server.step(act, clock.moment)?)
}

/// Takes an act as a step, which brings no snapshot, at the clock's moment.
pub fn take<M: Machine>(
    server: &mut Server<M>,
    act: Act,
    clock: &Clock,
) -> Result<Outcome, CoreError>
    ensures { IfOk result (λ outcome. TakesAct M.application clock.now.moment act server.old outcome server.new) }
{
    take_with(server, PackedAct::plain(act), clock)
}

/// Takes these moves as steps, in order.
pub fn take_all<M: Machine>(
    server: &mut Server<M>,
    moves: Vec<Move>,
    clock: &Clock,
) -> Result<(), CoreError>
    ensures { OnOk result (TakesActs M.application clock.now.moment (map act_of moves.items) server.old server.new) }
{
    for chosen in moves {
        take(server, act_of(chosen), clock)?;
    }
    Ok(())
}
