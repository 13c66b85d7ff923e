//! What client sessions give: a request that is repeated takes effect once. Definitions and proofs, on functions that do nothing.
#![tactic(auto)]

ghost use Rattle.proof_sessions.specs.Laws.{RepeatsChangeNothing, RequestsTakeEffectOnce};

/// An operation that repeats another of its session, with its number, changes nothing, and is answered as that was, or is outdated by
/// a later request of the session: whatever stands between, unless more sessions are named than are remembered.
pub fn repeats_change_nothing()
    ensures { RepeatsChangeNothing }
{}

/// If a history of operations is linearizable on the service (`servers_see_one_object`), and names no more sessions than are
/// remembered, the history of its requests is linearizable on the keys alone (Herlihy and Wing): a request is all its attempts
/// together, called as the first was, and returned as one that was answered.
///
/// It says nothing of what a client does with an attempt that wasn't answered, nor of sessions that were forgotten.
pub fn requests_take_effect_once()
    ensures { RequestsTakeEffectOnce }
{}
