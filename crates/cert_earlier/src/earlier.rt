//! The prefixes of the lines that were accepted.

ghost use Rattle.std.specs.Prelude.{◌≡◌, ◌↔◌, ◌⊎◌, ◌++◌, ◌∷◌, List, [], ℕ, Some, None, slice_get, IfOk, IfSome, IsTrue, OnOk};
ghost use Rattle.aud_witness.specs.declared.decision.Decision.{Decision};
ghost use Rattle.std.specs.List.{Contains};
ghost use Rattle.cert_earlier.specs.Beginnings.{decisions_of, IsFoundAmong, IsNotedAlone, IsNotedBeside};
ghost use Rattle.cert_earlier.specs.Landings.{IsLandingOf};
ghost use Rattle.cert_earlier.specs.declared.landing.Landing.{Landing};

use crate::landing::Landing;
use crate::moving::is_same;
use crate::prefix_key::PrefixKey;
use aud_event::OutOfMemory;
use aud_order::Shape;
use aud_witness::Decision;
use bumpalo::Bump;
use std::alloc::{Allocator, Global};
use std::collections::HashMap;
use std::hash::{BuildHasherDefault, FoldHasher};
use std::marker::Model;

/// A decision that makes a prefix of the prefix that it is noted after, and the number of where that leads, if it is kept.
#[derive(Clone, Copy)]
pub(crate) struct Noted {
    decision: Decision,
    landing: Option<u32>,
}

/// For each beginning what was noted after it.
type Beginnings<'c, A> = HashMap<PrefixKey<'c>, Vec<Noted, A>, BuildHasherDefault<FoldHasher>, A>;

/// A set of prefixes, seen as a list of them: those that begin alike stand together, as the decisions after that beginning.
/// The beginnings stand side by side in an arena of their own, so that they are compared near each other. Where some of the prefixes
/// lead is kept beside them.
#[derive(Drop)]
pub struct Earlier<'c, A: Allocator + Copy = Global> {
    alloc: A,
    shape: &'c Shape<A>,
    arena: &'c Bump<A>,
    beginnings: Beginnings<'c, A>,
    landings: Vec<Landing, A>,
    has_empty: bool,
}

impl<'c, A: Allocator + Copy> Model for Earlier<'c, A> {
    ghost use Rattle.cert_earlier.specs.Beginnings.{prefixes_of, AreLanded, EarlierOf};

    ghost Value = { EarlierOf };

    ghost view = { λ e. record { shape = e.shape.now; prefixes = prefixes_of e.has_empty e.beginnings } };

    ghost invariant = { λ e. AreLanded e.shape.now e.landings.items e.beginnings };
}

/// What was noted with the decision.
fn find(noted: &[Noted], decision: Decision) -> Option<Noted>
    ensures { IsFoundAmong noted.now decision result }
{
    for one in noted {
        if is_same(one.decision, decision) {
            return Some(*one);
        }
    }
    None
}

/// Whether the decision is one of those that were noted.
pub(crate) fn is_among(noted: &[Noted], decision: Decision) -> bool
    ensures { IsTrue result ↔ Contains (decisions_of noted.now) decision }
{
    find(noted, decision).is_some()
}

/// Notes something after a beginning, if its decision is not noted there. A new beginning is copied among the others.
fn note<'c, A: Allocator + Copy>(
    alloc: A,
    arena: &'c Bump<A>,
    beginnings: &mut Beginnings<'c, A>,
    beginning: &'c [Decision],
    one: Noted,
) -> Result<(), OutOfMemory>
    ensures noted { OnOk result (IsNotedBeside beginnings.old beginnings.new beginning.entry.now one.decision) }
    ensures alone { IsNotedAlone beginnings.old beginnings.new beginning.entry.now one }
{
    let key = PrefixKey::of(beginning);
    if let Some(noted) = beginnings.get_mut(&key) {
        if !is_among(noted, one.decision) {
            noted.push(one)?;
        }
        return Ok(());
    }
    let own = arena.try_alloc_slice_copy(beginning)?;
    let mut noted = Vec::new(alloc);
    noted.push(one)?;
    let _ = beginnings.insert(PrefixKey::of(own), noted)?;
    Ok(())
}

/// Keeps where a prefix leads, if that is known, and answers its number.
fn keep<A: Allocator>(
    landings: &mut Vec<Landing, A>,
    landing: Option<Landing>,
) -> Result<Option<u32>, OutOfMemory>
    ensures kept { IfOk result (λ number. IfSome number (λ k. (l : Landing) × (landing ≡ Some l) × (slice_get landings.new.items k ≡ Some l))) }
    ensures stays { (k : ℕ) (l : Landing) → slice_get landings.old.items k ≡ Some l → slice_get landings.new.items k ≡ Some l }
{
    let Some(landing) = landing else {
        return Ok(None);
    };
    let Ok(number) = u32::try_from(landings.len()) else {
        return Ok(None);
    };
    landings.push(landing)?;
    Ok(Some(number))
}

/// What is kept at the number, if there is one.
fn landing_at(landings: &[Landing], number: Option<u32>) -> Option<&Landing>
    ensures { IfSome result (λ l. (k : ℕ) × (number ≡ Some k) × (slice_get landings.now k ≡ Some l.now)) }
{
    match number {
        Some(number) => landings.get(number as usize),
        None => None,
    }
}

impl<'c, A: Allocator + Copy> Earlier<'c, A> {
    /// No prefixes. What they begin with is going to stand in the arena.
    pub fn none(alloc: A, shape: &'c Shape<A>, arena: &'c Bump<A>) -> Earlier<'c, A>
        ensures { result ≡ record { shape = shape.entry.now; prefixes = [] } }
    {
        Earlier {
            alloc,
            shape,
            arena,
            beginnings: HashMap::new(alloc),
            landings: Vec::new(alloc),
            has_empty: false,
        }
    }

    /// What was noted after the prefix: the decisions with which it makes one of the prefixes. It does not allocate.
    pub(crate) fn after(&self, list: &'c [Decision]) -> &[Noted]
        ensures { (d : Decision) → Contains (decisions_of result.now) d ↔ Contains self.now.prefixes (list.entry.now ++ d ∷ []) }
    {
        match self.beginnings.get(&PrefixKey::of(list)) {
            Some(noted) => noted.as_slice(),
            None => &[],
        }
    }

    /// Whether the prefix with the decision after it is one of them. It does not allocate.
    pub fn has_after(&self, list: &'c [Decision], decision: Decision) -> bool
        ensures { IsTrue result ↔ Contains self.now.prefixes (list.entry.now ++ decision ∷ []) }
    {
        is_among(self.after(list), decision)
    }

    /// Whether the prefix is one of them. It does not allocate.
    pub(crate) fn has(&self, prefix: &'c [Decision]) -> bool
        ensures { IsTrue result ↔ Contains self.now.prefixes prefix.entry.now }
    {
        match prefix.split_last() {
            Some((last, list)) => self.has_after(list, *last),
            None => self.has_empty,
        }
    }

    /// Where the prefix leads, if it is one of them and that is kept. It does not allocate.
    pub(crate) fn landing(&self, prefix: &'c [Decision]) -> Option<&Landing>
        ensures { IfSome result (λ l. Contains self.now.prefixes prefix.entry.now × IsLandingOf self.now.shape prefix.entry.now l.now) }
    {
        let (last, list) = prefix.split_last()?;
        let noted = self.beginnings.get(&PrefixKey::of(list))?;
        let one = find(noted, *last)?;
        landing_at(&self.landings, one.landing)
    }

    /// Adds a prefix, with where it leads, if that is to be kept.
    pub fn add(
        &mut self,
        prefix: &'c [Decision],
        landing: Option<Landing>,
    ) -> Result<(), OutOfMemory>
        requires { IfSome landing (IsLandingOf self.old.shape prefix.now) }
        ensures shape { OnOk result (self.new.shape ≡ self.old.shape) }
        ensures prefixes { OnOk result ((p : List Decision) → Contains self.new.prefixes p ↔ (Contains self.old.prefixes p ⊎ (p ≡ prefix.entry.now))) }
    {
        let Some((last, list)) = prefix.split_last() else {
            self.has_empty = true;
            return Ok(());
        };
        let landing = keep(&mut self.landings, landing)?;
        let decision = *last;
        let one = Noted { decision, landing };
        note(self.alloc, self.arena, &mut self.beginnings, list, one)
    }
}
