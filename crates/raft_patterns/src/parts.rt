//! The first part of a pattern: whether it takes a byte, and what stands behind it.

ghost use Rattle.std.specs.Prelude.{◌≡◌, ◌<◌, ◌≤◌, length, IfSome};
ghost use Rattle.std.specs.Option.{option_copied};
ghost use Rattle.raft_patterns.specs.Patterns.{between, item, class_at, bracket, escaped, first};
ghost use Rattle.raft_patterns.specs.Runs.{has, told, takes};

/// Whether a byte is one of those from one end to the other, in either order.
fn is_between(byte: u8, one: u8, other: u8) -> bool
    ensures { result ≡ between byte (one, other) }
{
    one.min(other) <= byte && byte <= one.max(other)
}

/// The ends of what a class has first, and the class behind it.
fn item(first: u8, after: &[u8]) -> (u8, u8, &[u8])
    ensures item { ((result.0, result.1), result.2.now) ≡ item first after.now }
    ensures shorter { length result.2.now ≤ length after.now }
{
    match after {
        [byte, rest @ ..] if first == b'\\' => (*byte, *byte, rest),
        [b'-', other, rest @ ..] => (first, *other, rest),
        _ => (first, first, after),
    }
}

/// Whether a class has a byte, and the pattern behind the class, which `]` or the pattern's end ends.
fn class<'a>(pattern: &'a [u8], byte: u8) -> (bool, &'a [u8])
    ensures class { (result.0, result.1.now) ≡ has byte (class_at pattern.now) }
    ensures shorter { length result.1.now ≤ length pattern.now }
{
    let mut has = false;
    let mut rest = pattern;
    while let Some((first, after)) = rest.split_first() {
        if *first == b']' {
            return (has, after);
        }
        let (one, other, after) = item(*first, after);
        has = has || is_between(byte, one, other);
        rest = after;
    }
    (has, rest)
}

/// Behind `[`: whether the part takes a byte, and the pattern behind it.
fn bracket(pattern: &[u8], byte: u8) -> (bool, &[u8])
    ensures told { (result.0, result.1.now) ≡ told byte (bracket pattern.now) }
    ensures shorter { length result.1.now ≤ length pattern.now }
{
    match pattern.split_first() {
        Some((b'^', negated)) => {
            let (has, rest) = class(negated, byte);
            (!has, rest)
        }
        _ => class(pattern, byte),
    }
}

/// Behind `\`: whether the part takes a byte, and the pattern behind it.
#[tactic(auto, using(crate::proofs::Classes::same_ends))]
fn escaped(pattern: &[u8], byte: u8) -> (bool, &[u8])
    ensures told { (result.0, result.1.now) ≡ told byte (escaped pattern.now) }
    ensures shorter { length result.1.now ≤ length pattern.now }
{
    match pattern.split_first() {
        Some((one, rest)) => (*one == byte, rest),
        None => (b'\\' == byte, pattern),
    }
}

/// Whether a pattern's first part takes a byte, and the pattern behind it. A run of any bytes takes none here.
#[tactic(auto, using(crate::proofs::Classes::same_ends))]
fn first(one: u8, after: &[u8], byte: u8) -> (bool, &[u8])
    ensures told { (result.0, result.1.now) ≡ told byte (first one after.now) }
    ensures shorter { length result.1.now ≤ length after.now }
{
    match one {
        b'*' => (false, after),
        b'?' => (true, after),
        b'[' => bracket(after, byte),
        b'\\' => escaped(after, byte),
        _ => (one == byte, after),
    }
}

/// The pattern behind its first part, if that takes a byte.
#[tactic(auto, unfolding(crate::specs::Runs::takes))]
pub(crate) fn takes(pattern: &[u8], byte: u8) -> Option<&[u8]>
    ensures taken { option_copied result ≡ takes pattern.now byte }
    ensures shorter { IfSome result (λ rest. length rest.now ≤ length pattern.now) }
{
    let (one, after) = pattern.split_first()?;
    let (takes, rest) = first(*one, after, byte);
    if takes { Some(rest) } else { None }
}
