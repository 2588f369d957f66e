#![tactic(auto)]
//! Joins with laws: values that grow by taking in others of their kind, where neither the order, nor the grouping,
//! nor repeats of what is taken in show.
//!
//! A refused join or insert leaves the value as it was.
//!
//! For whoever gathers values that arrive in any order, and more than once. A `UnionSet` has items, `insert` puts one in, and `items` has them in
//! their order; a `Cover` has lists, and `mark` says how one stands to them; `join` of any `Lattice` takes in another value of its kind.
//!
//! ```
//! let mut ours = UnionSet::from_vec(alloc, items)?;
//! let is_new = ours.insert(item)?;
//! ours.join(&theirs)?;
//! for item in ours.items() {
//!     print(item);
//! }
//! ```

ghost use Rattle.std.specs.Prelude.{◌≡◌, OnOk, OnErr, IsTrue, ◌↔◌};
ghost use Rattle.aud_lattice.specs.Laws.{SemilatticeLaws};

mod cover;
mod groupings;
pub mod laws;
mod least;
mod mark;
mod pair;
mod row;
mod trie;
mod union_set;

pub use base_trees::Iter;
use base_values::OutOfMemory;
pub use cover::Cover;
pub use groupings::{joined, joined_both_ways};
pub use least::Least;
pub use mark::Mark;
pub use pair::Pair;
pub use row::Row;
pub use trie::Trie;
pub use union_set::UnionSet;

/// Values that can be joined. Generic code learns from a join what value it leaves (`join_of`), and from the laws what
/// the meanings of such values have to do with each other.
pub trait Lattice {
    /// What a value stands for. Values that code makes are equal exactly where their meanings are.
    ghost Meaning: { Type 0 };

    /// What this value stands for.
    ghost meaning: { Self → Meaning };

    /// What two values stand for together.
    ghost merge: { Meaning → Meaning → Meaning };

    /// The value that a join leaves.
    ghost join_of: { Self → Self → Self };

    /// Takes in the other. A refused join leaves the value as it was.
    fn join(&mut self, other: &Self) -> Result<(), OutOfMemory>
        ensures ok { OnOk result (self.new ≡ join_of self.old other.now) }
        ensures err { OnErr result (self.new ≡ self.old) };

    /// Whether both stand for the same. It does not allocate.
    fn same(&self, other: &Self) -> bool
        ensures same_value { IsTrue result ↔ (self.now ≡ other.now) }
        ensures same_meaning { IsTrue result ↔ (meaning self.now ≡ meaning other.now) };

    /// A join leaves a value that stands for both.
    ghost respects: { (x y : Self) → meaning (join_of x y) ≡ merge (meaning x) (meaning y) };

    /// Merging is commutative, associative and idempotent.
    ghost laws: { SemilatticeLaws merge };
}
