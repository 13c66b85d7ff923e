//! Keys, which are found by the numbers that their first bytes are.

ghost use Rattle.std.specs.Prelude.{◌≡◌, ◌≤◌, length, IfOk};
ghost use Rattle.std.specs.Ordering.{nat_cmp};
ghost use Rattle.std.specs.Cmp.Lexicographic.{slice_cmp};
ghost use Rattle.raft_machine.specs.Cursors.{AreBytes, leading};

use crate::cursors::heads;
use raft_state::Items;
use std::alloc::{AllocError, Global};
use std::cmp::Ordering;
use std::marker::Model;

/// A key, which contracts see as its bytes. It has the first sixteen of them as two numbers beside it, so that most keys are compared
/// without a look at memory elsewhere.
#[derive(Debug, Drop)]
pub struct Key {
    first: u64,
    second: u64,
    bytes: Vec<u8>,
}

impl Model for Key {
    ghost use Rattle.std.specs.Prelude.{ℕ, List};
    ghost use Rattle.raft_machine.specs.Cursors.{IsHeaded};

    ghost Value = { List ℕ };

    ghost view = { λ a. a.bytes.items };

    ghost invariant = { λ a. IsHeaded a.first a.second a.bytes.items };
}

/// How keys compare whose heads are the same. The heads of a short key tell all of it but how many zeros are at its end.
fn cmp_after_heads(a: &[u8], b: &[u8]) -> Ordering
    requires heads { leading 16 a.now ≡ leading 16 b.now }
    requires a { length a.now ≤ 16 → AreBytes a.now }
    requires b { length b.now ≤ 16 → AreBytes b.now }
    ensures { result ≡ slice_cmp nat_cmp a.now b.now }
{
    if a.len() <= 16 && b.len() <= 16 {
        a.len().cmp(&b.len())
    } else {
        a.cmp(b)
    }
}

impl PartialEq for Key {
    ghost use Rattle.std.specs.Ordering.{nat_cmp, eq_by_cmp};
    ghost use Rattle.std.specs.Cmp.{eq_by_cmp_equiv, partial_equiv_from_equiv};
    ghost use Rattle.std.specs.Cmp.Lexicographic.{slice_cmp, nat_list_cmp_total};

    ghost eq = { eq_by_cmp (slice_cmp nat_cmp) };

    ghost laws = { partial_equiv_from_equiv (eq_by_cmp_equiv nat_list_cmp_total) };

    fn eq(&self, other: &Key) -> bool {
        self.cmp(other).is_eq()
    }
}

impl Eq for Key {
    ghost use Rattle.std.specs.Cmp.{eq_by_cmp_equiv};
    ghost use Rattle.std.specs.Cmp.Lexicographic.{nat_list_cmp_total};

    ghost laws = { eq_by_cmp_equiv nat_list_cmp_total };
}

impl PartialOrd for Key {
    ghost use Rattle.std.specs.Prelude.{Some};
    ghost use Rattle.std.specs.Ordering.{nat_cmp};
    ghost use Rattle.std.specs.Cmp.{partial_order_from_total};
    ghost use Rattle.std.specs.Cmp.Lexicographic.{slice_cmp, nat_list_cmp_total};

    ghost partial_cmp = { λ x y. Some (slice_cmp nat_cmp x y) };

    ghost laws = { partial_order_from_total nat_list_cmp_total };

    fn partial_cmp(&self, other: &Key) -> Option<Ordering> {
        Some(self.cmp(other))
    }
}

impl Ord for Key {
    ghost use Rattle.std.specs.Prelude.{refl};
    ghost use Rattle.std.specs.Ordering.{nat_cmp};
    ghost use Rattle.std.specs.Cmp.Lexicographic.{slice_cmp, nat_list_cmp_total};

    ghost cmp = { slice_cmp nat_cmp };

    ghost total = { nat_list_cmp_total };

    ghost matches_partial_cmp = { λ x y. refl };

    ghost matches_eq = { λ x y. refl };

    fn cmp(&self, other: &Key) -> Ordering {
        match self.first.cmp(&other.first) {
            Ordering::Equal => match self.second.cmp(&other.second) {
                Ordering::Equal => cmp_after_heads(&self.bytes, &other.bytes),
                order => order,
            },
            order => order,
        }
    }
}

impl Key {
    /// The key with these bytes. Allocates nothing.
    pub fn from_vec(bytes: Vec<u8>) -> Self
        ensures { result ≡ bytes.items }
    {
        let (first, second) = heads(&bytes);
        Key {
            first,
            second,
            bytes,
        }
    }

    /// The key with a copy of these bytes.
    pub fn from_slice(alloc: Global, bytes: &[u8]) -> Result<Self, AllocError>
        ensures { IfOk result (λ key. key ≡ bytes.now) }
    {
        Ok(Key::from_vec(Vec::from_slice(alloc, bytes)?))
    }

    /// The key with these bytes. Allocates nothing.
    pub fn from_items(bytes: Items<u8>) -> Self
        ensures { result ≡ bytes }
    {
        Key::from_vec(bytes.into_vec())
    }

    /// A copy of the bytes.
    pub fn copy_bytes(&self) -> Result<Vec<u8>, AllocError>
        ensures { IfOk result (λ bytes. bytes.items ≡ self.now) }
    {
        Vec::from_slice(*self.bytes.allocator(), &self.bytes)
    }

    /// The bytes.
    pub fn as_slice(&self) -> &[u8]
        ensures { result.now ≡ self.now }
    {
        &self.bytes
    }

    /// The bytes. Allocates nothing.
    pub fn into_vec(self) -> Vec<u8>
        ensures { result.items ≡ self }
    {
        let Key { bytes, .. } = self;
        bytes
    }
}
