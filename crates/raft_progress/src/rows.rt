//! The rows of a table.

ghost use Rattle.std.specs.Prelude.{◌≡◌, ◌≤◌, ◌++◌, length, map, filter, take, not, IfOk, OnOk};
ghost use Rattle.raft_state.specs.Sorted.{has_id};
ghost use Rattle.std.specs.Option.{option_copied};
ghost use Rattle.raft_progress.specs.Table.{row_of, with_value, rows_of, kept_row, learners_beside, measures};

use crate::measured::Measured;
use crate::quorum::holds;
use raft_state::{NodeId, sorted_ids};
use std::alloc::{AllocError, Global};

/// The value of an id.
pub(crate) fn row_of<'a, ID: NodeId, V>(rows: &'a [(ID, V)], id: &ID) -> Option<&'a V>
    ensures { option_copied result ≡ row_of ID.cmp id.now rows.now }
{
    let row = rows.iter().find(|row| id.cmp(&row.0).is_eq())?;
    Some(&row.1)
}

/// Sets the value of a row that is the id's.
fn set_row<ID: NodeId, V: Copy>(row: &mut (ID, V), id: &ID, v: V)
    ensures { row.new ≡ with_value ID.cmp id.now v row.old }
{
    if id.cmp(&row.0).is_eq() {
        row.1 = v;
    }
}

/// Sets the value of the id's row.
pub(crate) fn set_value<ID: NodeId, V: Copy>(rows: &mut [(ID, V)], id: &ID, v: V)
    ensures { rows.new ≡ map (with_value ID.cmp id.now v) rows.old }
{
    for row in rows.iter_mut() {
        set_row(row, id, v);
    }
}

/// The learners that are not voters, ascending, each once.
pub(crate) fn learners_beside<ID: NodeId>(
    alloc: Global,
    voters: &[ID],
    learners: &[ID],
) -> Result<Vec<ID>, AllocError>
    ensures { IfOk result (λ beside. beside.items ≡ learners_beside ID.cmp voters.now learners.now) }
{
    let ordered = sorted_ids(alloc, Vec::from_slice(alloc, learners)?)?;
    without(alloc, ordered.as_slice(), voters)
}

/// The ids that are none of the others.
fn without<ID: NodeId>(alloc: Global, ids: &[ID], others: &[ID]) -> Result<Vec<ID>, AllocError>
    ensures { IfOk result (λ left. left.items ≡ filter (λ id. not (has_id ID.cmp others.now id)) ids.now) }
{
    let mut left = Vec::new(alloc);
    for id in ids {
        if !holds(others, id) {
            left.push(*id)?;
        }
    }
    Ok(left)
}

/// A row for each voter and then each learner, with a value.
pub(crate) fn rows_of<ID: Copy, V: Copy>(
    alloc: Global,
    voters: &[ID],
    learners: &[ID],
    v: V,
) -> Result<Vec<(ID, V)>, AllocError>
    ensures { IfOk result (λ rows. rows.items ≡ rows_of v (voters.now ++ learners.now)) }
{
    let mut rows = Vec::new(alloc);
    push_rows(&mut rows, voters, v)?;
    push_rows(&mut rows, learners, v)?;
    Ok(rows)
}

/// Appends a row for each id, with a value.
fn push_rows<ID: Copy, V: Copy>(rows: &mut Vec<(ID, V)>, ids: &[ID], v: V) -> Result<(), AllocError>
    ensures { OnOk result (rows.new.items ≡ rows.old.items ++ rows_of v ids.now) }
{
    for id in ids {
        rows.push((*id, v))?;
    }
    Ok(())
}

/// Gives each row the old value of its id, if the id had one.
pub(crate) fn keep_values<ID: NodeId, V: Copy>(rows: &mut [(ID, V)], old: &[(ID, V)])
    ensures { rows.new ≡ map (kept_row ID.cmp old.now) rows.old }
{
    for row in rows.iter_mut() {
        keep_value(row, old);
    }
}

/// Gives a row the old value of its id, if the id had one.
fn keep_value<ID: NodeId, V: Copy>(row: &mut (ID, V), old: &[(ID, V)])
    ensures { row.new ≡ kept_row ID.cmp old.now row.old }
{
    if let Some(value) = row_of(old, &row.0) {
        row.1 = *value;
    }
}

/// The id of a row, and what its value is measured by.
fn measure_of<ID: Copy, V: Measured<P>, P: Copy>(row: &(ID, V)) -> (ID, P)
    ensures { result ≡ (row.now.0, V.measured row.now.1) }
{
    (row.0, *row.1.measure())
}

/// What the values of the rows are measured by.
fn measures_of<ID: Copy, V: Measured<P>, P: Copy>(
    alloc: Global,
    rows: &[(ID, V)],
) -> Result<Vec<(ID, P)>, AllocError>
    ensures { IfOk result (λ measured. measured.items ≡ measures V.measured rows.now) }
{
    let mut measured = Vec::new(alloc);
    for row in rows {
        measured.push(measure_of(row))?;
    }
    Ok(measured)
}

/// What the first rows, the voters', are measured by, a copy of the rows, and a copy of the measures.
pub(crate) fn spares_of<ID: Copy, V: Measured<P> + Copy, P: Copy>(
    alloc: Global,
    rows: &[(ID, V)],
    voters: usize,
) -> Result<(Vec<(ID, P)>, Vec<(ID, V)>, Vec<(ID, P)>), AllocError>
    requires { voters ≤ length rows.now }
    ensures ranked { IfOk result (λ made. made.0.items ≡ measures V.measured (take voters rows.now)) }
    ensures spare { IfOk result (λ made. made.1.items ≡ rows.now) }
    ensures spare_ranked { IfOk result (λ made. made.2.items ≡ made.0.items) }
{
    let ranked = measures_of(alloc, &rows[..voters])?;
    let spare = Vec::from_slice(alloc, rows)?;
    let spare_ranked = Vec::from_slice(alloc, &ranked)?;
    Ok((ranked, spare, spare_ranked))
}

/// Writes what the values of the rows are measured by.
pub(crate) fn write_measures<ID: Copy, V: Measured<P>, P: Copy>(
    rows: &[(ID, V)],
    measured: &mut [(ID, P)],
)
    requires { length measured.old ≡ length rows.now }
    ensures { measured.new ≡ measures V.measured rows.now }
{
    for i in 0..rows.len() {
        measured[i] = measure_of(&rows[i]);
    }
}
