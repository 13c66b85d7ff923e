//! Whether a pattern matches a key.

ghost use Rattle.std.specs.Prelude.{◌≡◌, ◌≤◌, true, length, IfSome};
ghost use Rattle.std.specs.Option.{option_map};
ghost use Rattle.raft_patterns.specs.Patterns.{matches};
ghost use Rattle.raft_patterns.specs.Runs.{stops, stripped, ends_well, fitting, found};

use crate::parts::takes;

/// Whether a pattern ends, or goes on with a run of any bytes.
fn stops(pattern: &[u8]) -> bool
    ensures { result ≡ stops pattern.now }
{
    match pattern.split_first() {
        Some((first, _)) => *first == b'*',
        None => true,
    }
}

/// What is left of a pattern and a key behind the parts up to the next run, or to the pattern's end, if each takes its byte.
#[tactic(auto, using(crate::proofs::Stripped::strip_here, crate::proofs::Stripped::strip_more, crate::proofs::Stripped::strip_end, crate::proofs::Stripped::strip_fails))]
fn strip<'a>(pattern: &'a [u8], key: &'a [u8]) -> Option<(&'a [u8], &'a [u8])>
    ensures stripped { option_map (λ x. (x.0.now, x.1.now)) result ≡ stripped pattern.now key.now }
    ensures stops { IfSome result (λ x. stops x.0.now ≡ true) }
    ensures shorter { IfSome result (λ x. length x.0.now ≤ length pattern.now) }
{
    let mut rest = pattern;
    let mut left = key;
    while !stops(rest) {
        let (byte, after) = left.split_first()?;
        rest = takes(rest, *byte)?;
        left = after;
    }
    Some((rest, left))
}

/// Whether a pattern that has ended has ended with the key.
fn ends_well(rest: &[u8], left: &[u8]) -> bool
    ensures { result ≡ ends_well (rest.now, left.now) }
{
    !rest.is_empty() || left.is_empty()
}

/// As [`strip`], if the pattern goes on or ends with the key.
#[tactic(auto, unfolding(crate::specs::Runs::fitting))]
fn fit<'a>(pattern: &'a [u8], key: &'a [u8]) -> Option<(&'a [u8], &'a [u8])>
    ensures fitting { option_map (λ x. (x.0.now, x.1.now)) result ≡ fitting pattern.now key.now }
    ensures stops { IfSome result (λ x. stops x.0.now ≡ true) }
    ensures shorter { IfSome result (λ x. length x.0.now ≤ length pattern.now) }
{
    match strip(pattern, key) {
        Some((rest, left)) if ends_well(rest, left) => Some((rest, left)),
        _ => None,
    }
}

/// As [`fit`], at the first place of the key at which it can be done.
#[tactic(auto, using(crate::proofs::Stripped::found_here, crate::proofs::Stripped::found_more, crate::proofs::Stripped::found_none))]
fn find<'a>(pattern: &'a [u8], key: &'a [u8]) -> Option<(&'a [u8], &'a [u8])>
    ensures found { option_map (λ x. (x.0.now, x.1.now)) result ≡ found pattern.now key.now }
    ensures stops { IfSome result (λ x. stops x.0.now ≡ true) }
    ensures shorter { IfSome result (λ x. length x.0.now ≤ length pattern.now) }
{
    let mut from = key;
    loop {
        if let Some((rest, left)) = fit(pattern, from) {
            return Some((rest, left));
        }
        let (_, after) = from.split_first()?;
        from = after;
    }
}

/// Whether a pattern matches a key, all of it:
///
/// - `*` takes any bytes, also none, and `?` one byte,
/// - `[abc]` takes one of these bytes, `[a-z]` one from `a` to `z`, in either order, and `[^a-z]` one of the others,
/// - `\x` takes `x` as it is, in brackets too, and any other byte takes itself.
///
/// Brackets that aren't closed go on to the pattern's end. The empty key matches the empty pattern alone.
///
/// Takes time in proportion to the pattern's length times the key's at most, whatever stars the pattern has.
///
/// Source: Redis 7.0, `util.c`, `stringmatchlen`. There the ends of `[a-z]` are C's `char`, which has a sign on some processors; here
/// a byte has none.
pub fn matches(pattern: &[u8], key: &[u8]) -> bool
    ensures { result ≡ matches pattern.now key.now }
{
    if key.is_empty() {
        return pattern.is_empty();
    }
    let Some((mut rest, mut left)) = strip(pattern, key) else {
        return false;
    };
    while let Some((_, behind)) = rest.split_first() {
        let Some(found) = find(behind, left) else {
            return false;
        };
        (rest, left) = found;
    }
    left.is_empty()
}
