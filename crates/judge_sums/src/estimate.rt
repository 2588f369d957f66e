//! What may be said of sums, part by part.

ghost use Rattle.std.specs.Prelude.{◌≡◌, ℤ, Bool, true, ◌&&◌, ◌+ℤ◌, if◌then◌else◌, pos, IfSome, IsTrue};
ghost use Rattle.judge_sums.specs.Between.{fits};

/// Says something of a number: what is said of two numbers says something of their sum.
pub trait Estimate: Copy {
    // what it says
    ghost says: { Self → ℤ → Type 0 };

    /// What is said of 0 in the same way.
    fn zero(self) -> Self
        ensures { says result (pos 0) };

    /// What is said in the same way of what a transaction of the weight adds, by what is known of its fate and of its place, if anything.
    fn share(self, weight: i64, kept: Option<bool>, before: Option<bool>) -> Option<Self>
        ensures { IfSome result (λ own. (k b : Bool) → fits kept k ≡ true → fits before b ≡ true → says own (if k && b then weight else pos 0)) };

    /// What is said of the sum of both numbers, if anything.
    fn plus(self, other: Self) -> Option<Self>
        ensures { IfSome result (λ sum. (m n : ℤ) → says self m → says other n → says sum (m +ℤ n)) };

    /// Whether what is said cannot be said of the number.
    fn excludes(self, number: i64) -> bool
        ensures { IsTrue result → says self number → ⊥ };
}
