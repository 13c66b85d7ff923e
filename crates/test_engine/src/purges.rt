//! The calls about snapshots and purges.
//!
//! - `keep COUNT BATCH`: the settings keep so many entries of a snapshot, and purge so many at once
//! - `build`: a snapshot is begun
//! - `built INDEX MEMBERS`: a snapshot up to what the node has at an index is finished, whose membership is that of
//!   0-0-0
//! - `purge INDEX`: the log is to be purged up to an index; `try-purge`: what is due, where nothing is sent of it

ghost use Rattle.std.specs.Prelude.{◌≡◌};
ghost use Rattle.std.specs.Ordering.{nat_cmp};
ghost use Rattle.raft_state.specs.Fits.{is_within};
ghost use Rattle.test_engine.specs.Sound.{IsInOrder};

use crate::made::made_line;
use crate::show::{show_flag, tell, tell_refusal};
use crate::types::Small;
use crate::words::snapshot_upto;
use raft_engine::Engine;
use raft_error::EngineError;
use raft_state::{LogId, reaches};
use test_cases::Sheet;

#[tactic(auto, using(crate::proofs::Sound::settings_sound))]
fn keep(engine: &mut Engine<Small>, sheet: &mut Sheet<'_>)
    requires { IsInOrder engine.old }
    ensures { IsInOrder engine.new }
{
    engine.config.max_in_snapshot_log_to_keep = sheet.number();
    engine.config.purge_batch_size = sheet.number();
}

/// Writes what a call answers about a snapshot.
pub fn tell_snapshot(
    word: &str,
    answer: Result<bool, EngineError<u64, u64>>,
    sheet: &mut Sheet<'_>,
) {
    match answer {
        Ok(done) => show_flag(word, done, sheet),
        Err(refusal) => tell_refusal(&refusal, sheet),
    }
}

/// Whether an id is at or below another, by order and by index.
pub fn is_within(a: &Option<LogId<u64>>, b: &Option<LogId<u64>>) -> bool
    ensures { result ≡ is_within nat_cmp a.now b.now }
{
    let index = match a {
        Some(id) => reaches(b, id.index),
        None => true,
    };
    a <= b && index
}

/// A snapshot up to what the node has at an index is finished.
#[tactic(auto, using(crate::proofs::Sound::held_fits))]
fn finish(engine: &mut Engine<Small>, sheet: &mut Sheet<'_>)
    requires { IsInOrder engine.old }
    ensures { IsInOrder engine.new }
{
    let index = sheet.number();
    let Some(id) = engine.state.get_log_id(index) else {
        return sheet.fail("the log has nothing there");
    };
    if id.index != index {
        return sheet.fail("the log has nothing at the index");
    }
    if !is_within(&Some(id), &engine.state.committed) {
        return sheet.fail("the id is not committed");
    }
    let meta = snapshot_upto(id, sheet);
    tell_snapshot("recorded", engine.finish_building_snapshot(meta), sheet);
}

/// A line that is one of these calls.
pub fn purge_call(engine: &mut Engine<Small>, name: &str, sheet: &mut Sheet<'_>)
    requires { IsInOrder engine.old }
    ensures { IsInOrder engine.new }
{
    match name {
        "keep" => keep(engine, sheet),
        "build" => tell_snapshot("begun", engine.trigger_snapshot(), sheet),
        "built" => finish(engine, sheet),
        "purge" => tell(engine.trigger_purge_log(sheet.number()), sheet),
        "try-purge" => tell(engine.try_purge_log(), sheet),
        _ => made_line(name, sheet),
    }
}
