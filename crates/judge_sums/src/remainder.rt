//! What sums leave when they are divided by a number.

ghost use Prim.Native.Nat.{◌∣◌};
ghost use Rattle.std.specs.Prelude.{◌≡◌, ℤ, IsTrue, IfSome, pos, Some, true, false};
ghost use Rattle.std.proofs.Math.IntN.{nat_abs};
ghost use Rattle.judge_sums.specs.Rests.{HasRest};

use crate::estimate::Estimate;

/// Whether the number is a multiple of the modulus, if that can be said.
fn is_multiple(number: i64, modulus: i64) -> Option<bool>
    ensures yes { result ≡ Some true → nat_abs modulus ∣ nat_abs number }
    ensures no { result ≡ Some false → nat_abs modulus ∣ nat_abs number → ⊥ }
{
    let rest = number.checked_rem(modulus)?;
    Some(rest == 0)
}

/// A number is the rest and a multiple of the modulus.
#[derive(Clone, Copy)]
pub struct Remainder {
    pub rest: i64,
    pub modulus: i64,
}

impl Remainder {
    /// Of multiples of the modulus.
    pub(crate) fn zero_of(modulus: i64) -> Remainder {
        Remainder { rest: 0, modulus }
    }

    /// Of the same modulus, with this rest.
    fn of(self, rest: i64) -> Remainder
        ensures { result ≡ record { rest = rest; modulus = self.modulus } }
    {
        Remainder {
            rest,
            modulus: self.modulus,
        }
    }

    /// What is said of the weight and of 0 alike, if the weight is a multiple of the modulus.
    fn unknown(self, weight: i64) -> Option<Remainder>
        ensures { IfSome result (λ own. HasRest own weight × HasRest own (pos 0)) }
    {
        match is_multiple(weight, self.modulus) {
            Some(is_multiple) => if is_multiple { Some(self.of(0)) } else { None },
            None => None,
        }
    }
}

impl Estimate for Remainder {
    ghost says = { HasRest };

    fn zero(self) -> Remainder {
        self.of(0)
    }

    fn share(self, weight: i64, kept: Option<bool>, before: Option<bool>) -> Option<Remainder> {
        match (kept, before) {
            (Some(false), _) | (_, Some(false)) => Some(self.of(0)),
            (Some(true), Some(true)) => Some(self.of(weight)),
            _ => self.unknown(weight),
        }
    }

    fn plus(self, other: Remainder) -> Option<Remainder> {
        if self.modulus != other.modulus {
            return None;
        }
        let rest = self.rest.checked_add(other.rest)?;
        Some(self.of(rest))
    }

    fn excludes(self, number: i64) -> bool {
        match number.checked_sub(self.rest) {
            Some(more) => match is_multiple(more, self.modulus) {
                Some(is_multiple) => !is_multiple,
                None => false,
            },
            None => false,
        }
    }
}
