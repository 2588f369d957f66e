//! Two values joined side by side.

ghost use Rattle.aud_lattice.specs.Pairs.{both, both_laws};

use crate::Lattice;
use base_values::{Dup, OutOfMemory};

/// Two values, joined part by part. A join copies `second` alone, so the larger part belongs first.
#[derive(Drop)]
pub struct Pair<A, B> {
    pub first: A,
    pub second: B,
}

impl<A: Dup, B: Dup> Dup for Pair<A, B> {
    fn dup(&self) -> Result<Pair<A, B>, OutOfMemory> {
        Ok(Pair {
            first: self.first.dup()?,
            second: self.second.dup()?,
        })
    }
}

impl<A: Lattice, B: Lattice + Dup> Lattice for Pair<A, B> {
    ghost Meaning = { A.Meaning × B.Meaning };

    ghost meaning = { λ p. (A.meaning p.first, B.meaning p.second) };

    ghost merge = { both A.merge B.merge };

    ghost join_of = { λ p q. record { first = A.join_of p.first q.first; second = B.join_of p.second q.second } };

    ghost respects = { λ x y i. (A.respects x.first y.first i, B.respects x.second y.second i) };

    ghost laws = { both_laws A.laws B.laws };

    // Both new parts are made before either is put in place. Only the second is copied.
    fn join(&mut self, other: &Pair<A, B>) -> Result<(), OutOfMemory> {
        let mut second = self.second.dup()?;
        second.join(&other.second)?;
        self.first.join(&other.first)?;
        self.second = second;
        Ok(())
    }

    fn same(&self, other: &Pair<A, B>) -> bool {
        self.first.same(&other.first) && self.second.same(&other.second)
    }
}
