//! The words of a line.

use anyhow::{Result, bail};
use raft_state::{LeaderId, LogId};

/// A number.
pub fn number(word: &str) -> Result<u64> {
    Ok(word.parse::<u64>()?)
}

/// A leader id, as `1-2` for term 1 and node 2.
pub fn leader_id(word: &str) -> Result<LeaderId<u64>> {
    let Some((term, node)) = word.split_once('-') else {
        bail!("no term and node: {word}");
    };
    Ok(LeaderId::new(number(term)?, number(node)?))
}

/// A log id, as `1-2-3` for term 1, node 2 and index 3.
pub fn log_id(word: &str) -> Result<LogId<u64>> {
    let Some((leader, index)) = word.rsplit_once('-') else {
        bail!("no log id: {word}");
    };
    Ok(LogId::new(leader_id(leader)?, number(index)?))
}
