//! Covers and witnesses that grow, and share what stays.

ghost use Rattle.std.specs.Prelude.{◌≡◌, ◌↔◌, Some, IfOk, IsTrue};
ghost use Rattle.std.specs.Cmp.Lexicographic.{slice_cmp};
ghost use Rattle.aud_lattice.specs.Covers.{IsCover, with_list, cover_union};
ghost use Rattle.aud_lattice.specs.Least.{least_of};
ghost use Rattle.aud_witness.specs.DecisionOrder.{decision_cmp};
ghost use Rattle.aud_know.specs.Beyond.{AreAllOrNew, AreNew, HasFinding, IsNewWitness};
ghost use Rattle.aud_know.specs.Known.{linked};

use aud_event::{Dup, OutOfMemory};
use aud_facts::Facts;
use aud_lattice::{Cover, Lattice, Mark};
use aud_witness::{Decision, Prefix};
use std::alloc::Allocator;
use std::cmp::Ordering;
use std::sync::Arc;

/// A cover that many may share.
pub type SharedCover<A> = Arc<Cover<Decision, A>, A>;

/// No witness, or one that many may share.
pub type SharedWitness<A> = Option<Arc<Prefix<A>, A>>;

/// The cover with the prefix. Where a beginning of the prefix is there already, it is the same cover.
pub fn cover_with<A: Allocator + Copy>(
    alloc: A,
    cover: &SharedCover<A>,
    prefix: &Prefix<A>,
) -> Result<SharedCover<A>, OutOfMemory>
    requires { IsCover decision_cmp cover.now.value }
    ensures { IfOk result (λ wider. wider.value ≡ with_list decision_cmp prefix.now cover.now.value) }
{
    match cover.mark(prefix.decisions()) {
        Mark::Covered => Ok(Arc::try_clone(cover)?),
        Mark::Inner | Mark::Outside => wider_cover(alloc, cover, prefix),
    }
}

/// A copy of the cover with the prefix.
fn wider_cover<A: Allocator + Copy>(
    alloc: A,
    cover: &Cover<Decision, A>,
    prefix: &Prefix<A>,
) -> Result<SharedCover<A>, OutOfMemory>
    ensures { IfOk result (λ wider. wider.value ≡ with_list decision_cmp prefix.now cover.now) }
{
    let mut wider = cover.dup()?;
    wider.insert(prefix.decisions())?;
    Ok(Arc::new(alloc, wider)?)
}

/// The cover of both. Where one has a beginning of each prefix of the other, it is that one, and nothing is copied.
pub fn covers_joined<A: Allocator + Copy>(
    alloc: A,
    ours: &SharedCover<A>,
    theirs: &SharedCover<A>,
) -> Result<SharedCover<A>, OutOfMemory>
    requires ours { IsCover decision_cmp ours.now.value }
    requires theirs { IsCover decision_cmp theirs.now.value }
    ensures { IfOk result (λ both. both.value ≡ cover_union decision_cmp ours.now.value theirs.now.value) }
{
    if ours.covers_all(theirs) {
        return Ok(Arc::try_clone(ours)?);
    }
    if theirs.covers_all(ours) {
        return Ok(Arc::try_clone(theirs)?);
    }
    joined_cover(alloc, ours, theirs)
}

/// The cover of both, copied.
fn joined_cover<A: Allocator + Copy>(
    alloc: A,
    ours: &Cover<Decision, A>,
    theirs: &Cover<Decision, A>,
) -> Result<SharedCover<A>, OutOfMemory>
    ensures { IfOk result (λ both. both.value ≡ cover_union decision_cmp ours.now theirs.now) }
{
    let mut both = ours.dup()?;
    both.join(theirs)?;
    Ok(Arc::new(alloc, both)?)
}

/// One more owner of the same witness.
pub fn shared<A: Allocator>(witness: &SharedWitness<A>) -> Result<SharedWitness<A>, OutOfMemory>
    ensures { IfOk result (λ same. linked same ≡ linked witness.now) }
{
    match witness {
        None => Ok(None),
        Some(order) => Ok(Some(Arc::try_clone(order)?)),
    }
}

/// The lesser of the witness and an order. Where it is the witness, it is shared.
pub fn witness_with<A: Allocator + Copy>(
    alloc: A,
    witness: &SharedWitness<A>,
    order: &Prefix<A>,
) -> Result<SharedWitness<A>, OutOfMemory>
    ensures { IfOk result (λ least. linked least ≡ least_of (slice_cmp decision_cmp) (linked witness.now) (Some order.now)) }
{
    match witness {
        None => copied(alloc, order),
        Some(old) => match orders_compared(old, order) {
            Ordering::Less | Ordering::Equal => Ok(Some(Arc::try_clone(old)?)),
            Ordering::Greater => copied(alloc, order),
        },
    }
}

fn copied<A: Allocator + Copy>(alloc: A, order: &Prefix<A>) -> Result<SharedWitness<A>, OutOfMemory>
    ensures { IfOk result (λ copy. linked copy ≡ Some order.now) }
{
    let copy = order.dup()?;
    Ok(Some(Arc::new(alloc, copy)?))
}

fn orders_compared<A: Allocator>(x: &Prefix<A>, y: &Prefix<A>) -> Ordering
    ensures { result ≡ slice_cmp decision_cmp x.now y.now }
{
    x.cmp(y)
}

/// The lesser of two witnesses, shared.
pub fn witnesses_joined<A: Allocator>(
    ours: &SharedWitness<A>,
    theirs: &SharedWitness<A>,
) -> Result<SharedWitness<A>, OutOfMemory>
    ensures { IfOk result (λ least. linked least ≡ least_of (slice_cmp decision_cmp) (linked ours.now) (linked theirs.now)) }
{
    match (ours, theirs) {
        (None, _) => shared(theirs),
        (Some(_), None) => shared(ours),
        (Some(x), Some(y)) => match orders_compared(x, y) {
            Ordering::Less | Ordering::Equal => Ok(Some(Arc::try_clone(x)?)),
            Ordering::Greater => Ok(Some(Arc::try_clone(y)?)),
        },
    }
}

/// The prefixes of the cover that are not of the other.
pub fn cover_beyond<A: Allocator + Copy>(
    alloc: A,
    ours: &SharedCover<A>,
    theirs: &SharedCover<A>,
) -> Result<SharedCover<A>, OutOfMemory>
    ensures new { IfOk result (λ left. AreNew ours.now.value theirs.now.value left.value) }
    ensures cover { IfOk result (λ left. IsCover decision_cmp left.value) }
{
    let left = ours.without(theirs)?;
    Ok(Arc::new(alloc, left)?)
}

/// The witness, where the other is not the same. It is shared.
pub fn witness_beyond<A: Allocator>(
    ours: &SharedWitness<A>,
    theirs: &SharedWitness<A>,
) -> Result<SharedWitness<A>, OutOfMemory>
    ensures { IfOk result (λ left. IsNewWitness (linked ours.now) (linked theirs.now) (linked left)) }
{
    if same_witness(ours, theirs) {
        return Ok(None);
    }
    shared(ours)
}

/// Whether there is a refuted prefix or a witness.
pub fn has_finding<A: Allocator + Copy>(cover: &SharedCover<A>, witness: &SharedWitness<A>) -> bool
    ensures { IsTrue result ↔ HasFinding cover.now.value (linked witness.now) }
{
    witness.is_some() || !cover.is_empty()
}

/// All of the facts, shared, or those that the others have not.
pub fn facts_beyond<A: Allocator + Copy>(
    all: bool,
    ours: &Facts<A>,
    theirs: &Facts<A>,
) -> Result<Facts<A>, OutOfMemory>
    ensures plan { IfOk result (λ f. f.plan ≡ ours.now.plan) }
    ensures facts { IfOk result (λ f. AreAllOrNew all ours.now.facts theirs.now.facts f.facts) }
{
    if all {
        ours.dup()
    } else {
        ours.without(theirs)
    }
}

/// Whether both are none, or both are the same order.
pub fn same_witness<A: Allocator>(ours: &SharedWitness<A>, theirs: &SharedWitness<A>) -> bool
    ensures { IsTrue result ↔ (linked ours.now ≡ linked theirs.now) }
{
    match (ours, theirs) {
        (None, None) => true,
        (Some(x), Some(y)) => same_order(x, y),
        (None, Some(_)) => false,
        (Some(_), None) => false,
    }
}

fn same_order<A: Allocator>(x: &Prefix<A>, y: &Prefix<A>) -> bool
    ensures { IsTrue result ↔ (x.now ≡ y.now) }
{
    x == y
}
