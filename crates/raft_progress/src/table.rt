//! Tables of progress: a value for each node, and the value that a quorum grants.

ghost use Rattle.std.specs.List.{list_any};
ghost use Rattle.std.specs.Prelude.{nat_lt, take, ◌≡◌, ◌<◌, ◌≤◌, Bool, true, Some, None, length, map, vec_len, IfOk, OnOk, OnErr, if◌then◌else◌, ⊤};
ghost use Rattle.std.specs.Borrow.{sem, follows_so};
ghost use Rattle.std.specs.Iterator.{YieldsFirstRef, item_count};
ghost use Rattle.std.specs.Option.{option_copied};
ghost use Rattle.std.specs.Slice.Iter.{iter_rest};
ghost use mathlib.Core.Option.{none};
ghost use Rattle.raft_progress.specs.Table.{granted, get, is_in, updated, increased, table_of, upgraded, kept_row, learners_beside, measures};
ghost use Rattle.raft_progress.specs.Updates.{Rises, Raises, Answers, AnswersWith, Given, Replaces};
ghost use Rattle.raft_progress.specs.contracts.table.VecProgress.{the_row};

use crate::granted::{all_stay, find_granted, move_voter, rank};
use crate::measured::Measured;
use crate::quorum::QuorumSet;
use crate::rows::{
    keep_values, learners_beside, row_of, rows_of, set_value, spares_of, write_measures,
};
use raft_progress_entry::ProgressEntry;
use raft_state::{LogId, NodeId};
use std::alloc::{AllocError, Global};
use std::marker::Model;
use std::slice;

/// A value for each voter and each learner, and the value that a quorum of the voters grants.
///
/// Iterates over the voters first, ascending by id, then the learners, ascending by id, each id once. Source:
/// openraft's `VecProgress`.
#[derive(Debug, Drop)]
pub struct VecProgress<ID: NodeId, V: Measured<P> + Copy, P: Ord + Copy, QS: QuorumSet<ID>> {
    quorum_set: QS,
    rows: Vec<(ID, V)>,
    voters: usize,
    default: P,
    granted: P,
    ranked: Vec<(ID, P)>,
    room: Vec<ID>,
    spare: Vec<(ID, V)>,
    spare_ranked: Vec<(ID, P)>,
}

impl<ID: NodeId, V: Measured<P> + Copy, P: Ord + Copy, QS: QuorumSet<ID>> Model
    for VecProgress<ID, V, P, QS> {
    ghost use Rattle.std.specs.Prelude.{◌≡◌, ◌≤◌, vec_len, take};
    ghost use Rattle.raft_progress.specs.Table.{Table, granted_among, measures};
    ghost use Rattle.raft_progress.specs.Ranking.{IsRanking};

    ghost Value = { Table ID V P QS };

    ghost view = { λ t. record { set = t.quorum_set; rows = t.rows.items; voters = t.voters; default = t.default } };

    // The voters are kept in falling order of value, and the kept value is the granted one. There is room for the
    // voters' ids, and for other values of the rows.
    ghost invariant = { λ t.
        (t.voters ≤ vec_len t.rows)
        × (t.voters ≤ vec_len t.room)
        × (vec_len t.spare ≡ vec_len t.rows)
        × (vec_len t.ranked ≡ t.voters)
        × (vec_len t.spare_ranked ≡ t.voters)
        × (IsRanking P.cmp (measures V.measured (take t.voters t.rows.items)) t.ranked.items)
        × (t.granted ≡ granted_among QS.has_quorum P.cmp V.measured
        t.quorum_set (take t.voters t.rows.items) t.default) };
}

/// The rows of a table, in its order.
#[derive(Drop)]
pub struct ProgressIter<'a, ID, V> {
    inner: slice::Iter<'a, (ID, V)>,
}

impl<'a, ID, V> Iterator for ProgressIter<'a, ID, V> {
    type Item = &'a (ID, V);

    ghost next_gives = { YieldsFirstRef (λ s. iter_rest s.inner) };

    ghost remaining = { item_count (λ s. iter_rest s.inner) };

    fn next(&mut self) -> Option<&'a (ID, V)> {
        self.inner.next()
    }
}

impl<ID: NodeId, V: Measured<P> + Copy, P: Ord + Copy, QS: QuorumSet<ID>> VecProgress<
    ID,
    V,
    P,
    QS,
> {
    /// A table in which each voter and each learner has the given value.
    ///
    /// A learner that is also a voter is a voter, and a repeated id counts once.
    pub fn new(
        alloc: Global,
        quorum_set: QS,
        learners: &[ID],
        default: V,
    ) -> Result<Self, AllocError>
        ensures { let voters = QS.members quorum_set in
            IfOk result (λ table. table ≡ table_of V.measured quorum_set voters
            (learners_beside ID.cmp voters learners.now) default) }
    {
        let room = quorum_set.ids(alloc)?;
        let learners = learners_beside(alloc, &room, learners)?;
        let rows = rows_of(alloc, &room, &learners, default)?;
        let voters = room.len();
        Self::of_rows(quorum_set, rows, voters, *default.measure(), room)
    }

    /// The table of these rows, of which the first are the voters', with room for their ids.
    fn of_rows(
        quorum_set: QS,
        rows: Vec<(ID, V)>,
        voters: usize,
        default: P,
        room: Vec<ID>,
    ) -> Result<Self, AllocError>
        requires rows { voters ≤ vec_len rows }
        requires room { voters ≤ vec_len room }
        ensures { IfOk result (λ table. table ≡ record { set = quorum_set; rows = rows.items; voters = voters; default = default }) }
    {
        let (ranked, spare, spare_ranked) = spares_of(*rows.allocator(), &rows, voters)?;
        Ok(Self::of_parts(
            quorum_set,
            rows,
            voters,
            default,
            ranked,
            room,
            spare,
            spare_ranked,
        ))
    }

    /// The table of these rows, of which the first are the voters', with these voters to be ranked, and room for them.
    fn of_parts(
        quorum_set: QS,
        rows: Vec<(ID, V)>,
        voters: usize,
        default: P,
        ranked: Vec<(ID, P)>,
        room: Vec<ID>,
        spare: Vec<(ID, V)>,
        spare_ranked: Vec<(ID, P)>,
    ) -> Self
        requires rows { voters ≤ vec_len rows }
        requires room { voters ≤ vec_len room }
        requires spare { vec_len spare ≡ vec_len rows }
        requires ranked { ranked.items ≡ measures V.measured (take voters rows.items) }
        requires spare_ranked { vec_len spare_ranked ≡ voters }
        ensures { result ≡ record { set = quorum_set; rows = rows.items; voters = voters; default = default } }
    {
        let mut ranked = ranked;
        let mut room = room;
        rank(ranked.as_mut_slice());
        let granted = find_granted(
            &quorum_set,
            &rows[..voters],
            &ranked,
            default,
            room.as_mut_slice(),
        );
        VecProgress {
            quorum_set,
            rows,
            voters,
            default,
            granted,
            ranked,
            room,
            spare,
            spare_ranked,
        }
    }

    /// The value that a quorum grants: the greatest value of a voter such that the voters with at least that value are
    /// a quorum; without one, the default given last.
    pub fn granted(&self) -> &P
        ensures { result.now ≡ granted QS.has_quorum P.cmp V.measured self.now }
    {
        &self.granted
    }

    /// The value that a quorum would grant if the id had the given value. Changes and allocates nothing.
    pub fn granted_with(&mut self, id: &ID, v: V) -> P
        ensures value { result ≡ granted QS.has_quorum P.cmp V.measured (updated ID.cmp self.old id.now v) }
        ensures same { self.new ≡ self.old }
    {
        self.spare.as_mut_slice().copy_from_slice(&self.rows);
        set_value(self.spare.as_mut_slice(), id, v);
        self.spare_ranked
            .as_mut_slice()
            .copy_from_slice(&self.ranked);
        move_voter(self.spare_ranked.as_mut_slice(), id, *v.measure());
        find_granted(
            &self.quorum_set,
            &self.spare[..self.voters],
            &self.spare_ranked,
            self.default,
            self.room.as_mut_slice(),
        )
    }

    /// The value of an id; none if it has no row.
    pub fn get(&self, id: &ID) -> Option<&V>
        ensures { option_copied result ≡ get ID.cmp self.now id.now }
    {
        row_of(&self.rows, id)
    }

    /// The rows, voters first, ascending by id, then learners, ascending by id.
    pub fn iter(&self) -> ProgressIter<'_, ID, V>
        ensures { iter_rest result.inner ≡ self.now.rows }
    {
        ProgressIter {
            inner: self.rows.iter(),
        }
    }

    /// The quorum set of the table.
    pub fn quorum_set(&self) -> &QS
        ensures { result.now ≡ self.now.set }
    {
        &self.quorum_set
    }

    /// The quorum set of the table, which is consumed.
    pub fn into_quorum_set(self) -> QS
        ensures { result ≡ self.set }
    {
        let VecProgress { quorum_set, .. } = self;
        quorum_set
    }

    /// Sets the value of the id's row, and moves its voter to its place.
    ///
    /// The granted value is found anew where the value doesn't stay on one side of it.
    fn place(&mut self, id: &ID, v: V)
        ensures { self.new ≡ updated ID.cmp self.old id.now v }
    {
        let at = *v.measure();
        let stays = all_stay(&self.rows[..self.voters], id, &self.granted, &at);
        set_value(self.rows.as_mut_slice(), id, v);
        move_voter(self.ranked.as_mut_slice(), id, at);
        if !stays {
            self.granted = find_granted(
                &self.quorum_set,
                &self.rows[..self.voters],
                &self.ranked,
                self.default,
                self.room.as_mut_slice(),
            );
        }
    }

    /// Sets the value of the id's row, if it has one.
    fn replace(&mut self, id: &ID, v: V) -> bool
        ensures found { result ≡ is_in ID.cmp self.old id.now }
        ensures after { self.new ≡
            (if is_in ID.cmp self.old id.now then updated ID.cmp self.old id.now v else self.old) }
    {
        let found = self.get(id).is_some();
        if found {
            self.place(id, v);
        }
        found
    }

    /// Sets the id's row to what the closure makes of its value, if it has one.
    fn replace_with<F: FnOnce(V) -> V>(&mut self, id: &ID, f: F) -> bool
        requires { Raises ID.cmp P.cmp V.measured F.FnOnce f self.old id.now }
        ensures { Replaces ID.cmp F.FnOnce f self.old id.now result self.new }
    {
        let Some(was) = self.get(id).copied() else {
            return false;
        };
        self.place(id, f(was));
        true
    }

    /// Raises the value of the id's row to at least v, if it has one.
    fn raise(&mut self, id: &ID, v: V) -> bool
        ensures found { result ≡ is_in ID.cmp self.old id.now }
        ensures after { self.new ≡ increased ID.cmp P.cmp V.measured self.old id.now v }
    {
        let Some(was) = self.get(id).copied() else {
            return false;
        };
        if was.measure().cmp(v.measure()).is_lt() {
            self.place(id, v);
        }
        true
    }

    /// Sets the value of an id and returns the granted value: `Ok` if the id has a row, else `Err` with nothing
    /// changed.
    ///
    /// The value must not fall. Allocates nothing.
    pub fn update(&mut self, id: &ID, v: V) -> Result<&P, &P>
        requires { Rises ID.cmp P.cmp V.measured self.old id.now v }
        ensures* { sem 𝓛 (follows_so
            (the_row ID.row V.row P.row QS.row
            ID.NodeId.own ID.Ord.own ID.PartialEq.own ID.PartialOrd.own ID.Hash.own
            ID.Default.own ID.Debug.own ID.Display.own V.Measured.own
            P.Ord.own P.PartialEq.own P.PartialOrd.own QS.QuorumSet.own)
            (the_row ID.row V.row P.row QS.row
            ID.NodeId.own ID.Ord.own ID.PartialEq.own ID.PartialOrd.own ID.Hash.own
            ID.Default.own ID.Debug.own ID.Display.own V.Measured.own
            P.Ord.own P.PartialEq.own P.PartialOrd.own QS.QuorumSet.own)
            self.entry.ghost_name none (λ _ _. ⊤)
            (λ after. Answers ID.cmp QS.has_quorum P.cmp V.measured self.old id.now
            (updated ID.cmp self.old id.now v) result after)) }
    {
        if self.replace(id, v) {
            Ok(&self.granted)
        } else {
            Err(&self.granted)
        }
    }

    /// Sets the value of an id to what the closure makes of it, and returns the granted value as `update` does.
    ///
    /// The value must not fall. Allocates nothing.
    pub fn update_with<F: FnOnce(V) -> V>(&mut self, id: &ID, f: F) -> Result<&P, &P>
        requires { Raises ID.cmp P.cmp V.measured F.FnOnce f self.old id.now }
        ensures* { sem 𝓛 (follows_so
            (the_row ID.row V.row P.row QS.row
            ID.NodeId.own ID.Ord.own ID.PartialEq.own ID.PartialOrd.own ID.Hash.own
            ID.Default.own ID.Debug.own ID.Display.own V.Measured.own
            P.Ord.own P.PartialEq.own P.PartialOrd.own QS.QuorumSet.own)
            (the_row ID.row V.row P.row QS.row
            ID.NodeId.own ID.Ord.own ID.PartialEq.own ID.PartialOrd.own ID.Hash.own
            ID.Default.own ID.Debug.own ID.Display.own V.Measured.own
            P.Ord.own P.PartialEq.own P.PartialOrd.own QS.QuorumSet.own)
            self.entry.ghost_name none (λ _ _. ⊤)
            (λ after. AnswersWith ID.cmp QS.has_quorum P.cmp V.measured F.FnOnce f
            self.old id.now result after)) }
    {
        if self.replace_with(id, f) {
            Ok(&self.granted)
        } else {
            Err(&self.granted)
        }
    }

    /// Raises the value of an id to at least v, and returns the granted value as `update` does.
    ///
    /// Allocates nothing.
    pub fn increase_to(&mut self, id: &ID, v: V) -> Result<&P, &P>
        ensures* { sem 𝓛 (follows_so
            (the_row ID.row V.row P.row QS.row
            ID.NodeId.own ID.Ord.own ID.PartialEq.own ID.PartialOrd.own ID.Hash.own
            ID.Default.own ID.Debug.own ID.Display.own V.Measured.own
            P.Ord.own P.PartialEq.own P.PartialOrd.own QS.QuorumSet.own)
            (the_row ID.row V.row P.row QS.row
            ID.NodeId.own ID.Ord.own ID.PartialEq.own ID.PartialOrd.own ID.Hash.own
            ID.Default.own ID.Debug.own ID.Display.own V.Measured.own
            P.Ord.own P.PartialEq.own P.PartialOrd.own QS.QuorumSet.own)
            self.entry.ghost_name none (λ _ _. ⊤)
            (λ after. Answers ID.cmp QS.has_quorum P.cmp V.measured self.old id.now
            (increased ID.cmp P.cmp V.measured self.old id.now v) result after)) }
    {
        if self.raise(id, v) {
            Ok(&self.granted)
        } else {
            Err(&self.granted)
        }
    }

    /// Gives each row another value of the same measure, in the table's order: what a quorum grants stays.
    ///
    /// Allocates nothing. Source: openraft's `iter_mut`.
    pub fn replace_values(&mut self, rows: Vec<(ID, V)>)
        requires { measures V.measured rows.items ≡ measures V.measured self.old.rows }
        ensures { self.new ≡ record self.old { rows = rows.items } }
    {
        self.rows = rows;
        self.granted = find_granted(
            &self.quorum_set,
            &self.rows[..self.voters],
            &self.ranked,
            self.default,
            self.room.as_mut_slice(),
        );
    }

    /// Makes this the table of another quorum set and other learners: ids that stay keep their values, others get the
    /// given default.
    ///
    /// A learner that is also a voter is a voter, and a repeated id counts once. Out of memory, nothing changes.
    /// Source: openraft's `upgrade_quorum_set`.
    pub fn upgrade_quorum_set(
        &mut self,
        quorum_set: QS,
        learners: &[ID],
        default: V,
    ) -> Result<(), AllocError>
        ensures ok { let voters = QS.members quorum_set in
            OnOk result (self.new ≡ upgraded ID.cmp P.cmp V.measured self.old quorum_set voters
            (learners_beside ID.cmp voters learners.now) default) }
        ensures err { OnErr result (self.new ≡ self.old) }
    {
        let alloc = *self.rows.allocator();
        let mut upgraded = Self::new(alloc, quorum_set, learners, default)?;
        upgraded.keep(&self.rows);
        *self = upgraded;
        Ok(())
    }

    /// Gives each row the old value of its id, if the id had one.
    fn keep(&mut self, old: &[(ID, V)])
        ensures { self.new ≡ record self.old { rows = map (kept_row ID.cmp old.now) self.old.rows } }
    {
        keep_values(self.rows.as_mut_slice(), old);
        write_measures(&self.rows[..self.voters], self.ranked.as_mut_slice());
        rank(self.ranked.as_mut_slice());
        self.granted = find_granted(
            &self.quorum_set,
            &self.rows[..self.voters],
            &self.ranked,
            self.default,
            self.room.as_mut_slice(),
        );
    }

    /// A table of a copy of the quorum set, with the same rows and default.
    pub fn copy(&self) -> Result<Self, AllocError>
        ensures { IfOk result (λ copied. QS.copy_gives self.now.set copied.set
            × (copied ≡ record self.now { set = copied.set })) }
    {
        let alloc = *self.rows.allocator();
        let (voters, default) = (self.voters, self.default);
        let rows = Vec::from_slice(alloc, &self.rows)?;
        let room = Vec::from_slice(alloc, &self.room)?;
        let quorum_set = self.quorum_set.copy(alloc)?;
        Self::of_rows(quorum_set, rows, voters, default, room)
    }

    /// A copy of the rows: voters first, ascending by id, then learners, ascending by id.
    pub fn rows(&self) -> Result<Vec<(ID, V)>, AllocError>
        ensures { IfOk result (λ rows. rows.items ≡ self.now.rows) }
    {
        Vec::from_slice(*self.rows.allocator(), &self.rows)
    }
}

impl<NID: NodeId, QS: QuorumSet<NID>> VecProgress<NID, ProgressEntry<NID>, Option<LogId<NID>>, QS> {
    /// Whether something was sent to some target under a number above this one.
    pub fn has_number_above(&self, limit: u64) -> bool
        ensures { result ≡ list_any (λ row. nat_lt limit row.1.last_inflight_id) self.now.rows }
    {
        self.rows.iter().any(|row| limit < row.1.last_inflight_id)
    }
}

impl<
    ID: NodeId,
    V: Measured<P> + Copy + PartialEq,
    P: Ord + Copy,
    QS: QuorumSet<ID> + PartialEq,
> PartialEq for VecProgress<ID, V, P, QS> {
    ghost use Rattle.raft_progress.specs.Table.{same_table};
    ghost use Rattle.raft_progress.specs.TableLaws.{same_table_per};

    ghost eq = { same_table QS.eq ID.eq V.eq P.eq };

    ghost laws = { same_table_per QS.PartialEq.laws ID.PartialEq.laws V.PartialEq.laws P.PartialEq.laws };

    fn eq(&self, other: &VecProgress<ID, V, P, QS>) -> bool {
        self.quorum_set == other.quorum_set
            && self.rows.as_slice() == other.rows.as_slice()
            && self.voters == other.voters
            && self.default == other.default
    }
}

impl<ID: NodeId, V: Measured<P> + Copy + Eq, P: Ord + Copy, QS: QuorumSet<ID> + Eq> Eq
    for VecProgress<ID, V, P, QS> {
    ghost use Rattle.raft_progress.specs.TableLaws.{same_table_equiv};

    ghost laws = { same_table_equiv QS.Eq.laws ID.Eq.laws V.Eq.laws P.Eq.laws };
}
