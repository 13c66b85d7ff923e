//! The head of a text at random.

use raft_cluster::Dice;
use std::alloc::{AllocError, Global};

/// How many servers: mostly three.
fn draw_count(dice: &mut Dice) -> u64 {
    match dice.below(8) {
        0 => 1,
        1 => 2,
        2 => 4,
        3 => 5,
        _ => 3,
    }
}

/// How many of these servers have a vote at first: mostly all.
fn draw_voters(dice: &mut Dice, count: u64) -> u64 {
    if dice.chance(60) {
        return count;
    }
    dice.up_to(count)
}

/// Writes a line of ids, from the first up to the last.
fn push_ids(name: &str, first: u64, last: u64, text: &mut String) -> Result<(), AllocError> {
    text.push_str(name)?;
    for id in first..=last {
        write!(text, " {id}")?;
    }
    text.push('\n')
}

/// Writes the nodes, and the first membership: one group of voters, seldom two; the others are learners, or not
/// members.
fn push_members(dice: &mut Dice, text: &mut String) -> Result<(), AllocError> {
    let count = draw_count(dice);
    let voters = draw_voters(dice, count);
    push_ids("nodes", 1, count, text)?;
    push_ids("voters", 1, voters, text)?;
    if dice.chance(10) {
        push_ids("voters", 1, dice.up_to(count), text)?;
    } else if voters < count && dice.chance(60) {
        push_ids("learners", voters + 1, count, text)?;
    }
    Ok(())
}

/// Writes a setting below a bound, mostly.
fn push_setting(
    dice: &mut Dice,
    name: &str,
    least: u64,
    bound: u64,
    text: &mut String,
) -> Result<(), AllocError> {
    if dice.chance(20) {
        return Ok(());
    }
    let value = least.saturating_add(dice.below(bound));
    writeln!(text, "set {name} {value}")?;
    Ok(())
}

/// Writes a limit below a bound, mostly.
fn push_limit(
    dice: &mut Dice,
    name: &str,
    least: u64,
    bound: u64,
    text: &mut String,
) -> Result<(), AllocError> {
    let value = least.saturating_add(dice.below(bound));
    writeln!(text, "limit {name} {value}")?;
    Ok(())
}

/// The head of a text at random: nodes, members, settings and limits.
pub fn draw_head(alloc: Global, dice: &mut Dice) -> Result<String, AllocError> {
    let mut text = String::new(alloc);
    text.push_str("language 2\n")?;
    push_members(dice, &mut text)?;
    push_setting(dice, "lease", 100, 150, &mut text)?;
    push_setting(dice, "batch", 1, 4, &mut text)?;
    push_setting(dice, "payload", 1, 40, &mut text)?;
    push_setting(dice, "policy", 1, 30, &mut text)?;
    push_setting(dice, "keep", 0, 10, &mut text)?;
    push_limit(dice, "spread", 50, 200, &mut text)?;
    push_limit(dice, "heartbeat", 10, 40, &mut text)?;
    push_limit(dice, "patience", 100, 200, &mut text)?;
    push_limit(dice, "timeout", 200, 2000, &mut text)?;
    push_limit(dice, "catch-up", 0, 4, &mut text)?;
    push_limit(dice, "log", 0, 500, &mut text)?;
    push_limit(dice, "value", 64, 1, &mut text)?;
    push_limit(dice, "waiting", 64, 400, &mut text)?;
    push_limit(dice, "requests", 1, 30, &mut text)?;
    push_limit(dice, "batch", 8, 200, &mut text)?;
    push_limit(dice, "part", 8, 200, &mut text)?;
    Ok(text)
}
