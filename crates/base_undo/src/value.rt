//! What is kept under a key.

ghost use Rattle.std.specs.Prelude.{◌≡◌, ◌↔◌, IsTrue, ℕ};
ghost use Rattle.std.specs.Int.{w64, cast_unsigned};
ghost use Rattle.std.specs.Ordering.{int_cmp};
ghost use Rattle.std.specs.declared.cmp.Ordering.{Ordering};
ghost use Rattle.std.specs.declared.cmp.Ordering.TheVariants.{Equal};
ghost use Rattle.base_undo.specs.Digests.{stirred};

use crate::digest::stir;
use std::cmp::Ordering;

/// A value that can stand under a key: it can be compared, and be stirred into a digest.
pub trait Value: Copy {
    // a digest with the value
    ghost stirs: { ℕ → Self → ℕ };

    // how values are ordered
    ghost orders: { Self → Self → Ordering };

    /// Whether the values are the same.
    fn same(&self, other: &Self) -> bool
        ensures { IsTrue result ↔ (self.now ≡ other.now) };

    /// The order of the values.
    fn order(&self, other: &Self) -> Ordering
        ensures { result ≡ orders self.now other.now };

    /// A digest with the value.
    fn stirred(&self, digest: u64) -> u64
        ensures { result ≡ stirs digest self.now };

    // a clone equals its source
    ghost exact: { (v w : Self) → Self.is_clone v w → w ≡ v };
}

/// Nothing beside the key, as in a set. A digest is that of the keys.
impl Value for () {
    ghost stirs = { λ digest _. digest };

    ghost orders = { λ _ _. Equal };

    ghost exact = { λ v w e. e };

    fn same(&self, _other: &()) -> bool {
        true
    }

    fn order(&self, _other: &()) -> Ordering {
        Ordering::Equal
    }

    fn stirred(&self, digest: u64) -> u64 {
        digest
    }
}

/// A number, as in a map.
impl Value for i64 {
    ghost stirs = { λ digest v. stirred digest (cast_unsigned w64 v) };

    ghost orders = { int_cmp };

    ghost exact = { λ v w e. e };

    fn same(&self, other: &i64) -> bool {
        *self == *other
    }

    fn order(&self, other: &i64) -> Ordering {
        self.cmp(other)
    }

    fn stirred(&self, digest: u64) -> u64 {
        stir(digest, self.cast_unsigned())
    }
}
