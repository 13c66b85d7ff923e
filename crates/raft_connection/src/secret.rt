//! Secrets.

ghost use Rattle.std.specs.Prelude.{◌≡◌, ◌==◌, zip, count_by, not};
ghost use Rattle.std.specs.Str.{bytes_eq};
ghost use Rattle.raft_connection.specs.Words.{is_login};

use raft_state::Items;

/// At how many places bytes differ from others.
fn differences(bytes: &[u8], others: &[u8]) -> usize
    ensures { result ≡ count_by (λ p. not (p.0 == p.1)) (zip bytes.now others.now) }
{
    bytes
        .iter()
        .zip(others.iter())
        .filter(|(byte, other)| **byte != **other)
        .count()
}

/// Whether bytes are a secret. All of them are compared, so the time that it takes says at most how long the secret is, and not
/// where they differ.
#[tactic(auto, using(crate::proofs::Secrets::none_differ))]
fn is_secret(secret: &[u8], bytes: &[u8]) -> bool
    ensures { result ≡ bytes_eq secret.now bytes.now }
{
    secret.len() == bytes.len() && differences(secret, bytes) == 0
}

/// Whether a user's word is right. There is one user, `default`, who needs none if no secret is set.
pub(crate) fn is_login(secret: &Option<Items<u8>>, user: &[u8], word: &[u8]) -> bool
    ensures { result ≡ is_login secret.now user.now word.now }
{
    let is_right = match secret {
        Some(secret) => is_secret(secret.as_slice(), word),
        None => true,
    };
    user == b"default".as_slice() && is_right
}
