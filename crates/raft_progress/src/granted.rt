//! How the granted value of a table is found.

ghost use Rattle.std.specs.Prelude.{◌≡◌, ◌+◌, ◌<◌, ◌≤◌, [], length, map};
ghost use Rattle.std.specs.List.{list_all};
ghost use Rattle.std.specs.List.Sorted.{IsPermutation};
ghost use Rattle.raft_progress.specs.Table.{granted_among, measures, with_value};
ghost use Rattle.raft_progress.specs.Ranking.{IsFalling, IsFallingUpTo, IsRanking, first_reached, first_equal, same_side, row_stays};

use crate::measured::Measured;
use crate::quorum::QuorumSet;
use crate::rows::set_value;
use raft_state::NodeId;

/// Moves a voter up, past those just before it whose values are smaller.
fn move_up<ID: NodeId, P: Ord + Copy>(voters: &mut [(ID, P)], from: usize)
    requires inside { from < length voters.old }
    requires falling { IsFallingUpTo P.cmp from voters.old }
    ensures same { IsPermutation voters.old voters.new }
    ensures falling { IsFallingUpTo P.cmp (from + 1) voters.new }
{
    let value = voters[from].1;
    let mut at = from;
    while 0 < at && voters[at - 1].1.cmp(&value).is_lt() {
        voters.swap(at - 1, at);
        at -= 1;
    }
}

/// Puts voters in falling order of value, by insertion.
///
/// Where they stand in this order already, as equal values of a new table do, it takes a comparison for each. Where one
/// value has changed, it moves that voter alone: one more comparison with a swap for each place by which it moves.
pub(crate) fn rank<ID: NodeId, P: Ord + Copy>(voters: &mut [(ID, P)])
    ensures same { IsPermutation voters.old voters.new }
    ensures falling { IsFalling P.cmp voters.new }
{
    for i in 0..voters.len() {
        move_up(voters, i);
    }
}

/// Gives the id's voter a value, and moves it to its place.
pub(crate) fn move_voter<ID: NodeId, P: Ord + Copy>(voters: &mut [(ID, P)], id: &ID, value: P)
    ensures same { IsPermutation (map (with_value ID.cmp id.now value) voters.old) voters.new }
    ensures falling { IsFalling P.cmp voters.new }
{
    set_value(voters, id, value);
    rank(voters);
}

/// The value at which a beginning of the ranking is a quorum for the first time, if any.
fn find_reached<ID: NodeId, P: Copy, QS: QuorumSet<ID>>(
    set: &QS,
    ranked: &[(ID, P)],
    room: &mut [ID],
) -> Option<P>
    requires { length ranked.now ≤ length room.old }
    ensures { result ≡ first_reached QS.has_quorum set.now [] ranked.now }
{
    for i in 0..ranked.len() {
        room[i] = ranked[i].0;
        if set.is_quorum(&room[..i + 1]) {
            return Some(ranked[i].1);
        }
    }
    None
}

/// The first row's value that is equal to `at`.
///
/// Which of several equal values is granted goes by the order of the rows.
fn find_equal<ID, V: Measured<P>, P: Ord + Copy>(rows: &[(ID, V)], at: &P) -> Option<P>
    ensures { result ≡ first_equal P.cmp V.measured at.now rows.now }
{
    let row = rows.iter().find(|row| row.1.measure().cmp(at).is_eq())?;
    Some(*row.1.measure())
}

/// The greatest value of these rows that a quorum of them has reached, or else the default.
pub(crate) fn find_granted<ID: NodeId, V: Measured<P>, P: Ord + Copy, QS: QuorumSet<ID>>(
    set: &QS,
    rows: &[(ID, V)],
    ranked: &[(ID, P)],
    default: P,
    room: &mut [ID],
) -> P
    requires room { length ranked.now ≤ length room.old }
    requires ranked { IsRanking P.cmp (measures V.measured rows.now) ranked.now }
    ensures { result ≡ granted_among QS.has_quorum P.cmp V.measured set.now rows.now default }
{
    match find_reached(set, ranked, room) {
        Some(at) => find_equal(rows, &at).unwrap_or(default),
        None => default,
    }
}

/// Whether two values stand on the same side of the granted one.
fn is_same_side<P: Ord>(granted: &P, old: &P, new: &P) -> bool
    ensures { result ≡ same_side P.cmp granted.now old.now new.now }
{
    (old.cmp(granted).is_lt() && new.cmp(granted).is_lt())
        || (granted.cmp(old).is_lt() && granted.cmp(new).is_lt())
}

/// Whether the granted value stays if this row gets the new value where it is the id's.
fn row_stays<ID: NodeId, V: Measured<P>, P: Ord>(
    row: &(ID, V),
    id: &ID,
    granted: &P,
    new: &P,
) -> bool
    ensures { result ≡ row_stays ID.cmp P.cmp V.measured id.now granted.now new.now row.now }
{
    !id.cmp(&row.0).is_eq() || is_same_side(granted, row.1.measure(), new)
}

/// Whether the granted value stays if the id gets the new value.
pub(crate) fn all_stay<ID: NodeId, V: Measured<P>, P: Ord>(
    rows: &[(ID, V)],
    id: &ID,
    granted: &P,
    new: &P,
) -> bool
    ensures { result ≡ list_all (row_stays ID.cmp P.cmp V.measured id.now granted.now new.now) rows.now }
{
    rows.iter().all(|row| row_stays(row, id, granted, new))
}
