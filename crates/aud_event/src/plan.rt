//! The plan: how many logs there are, and which objects, by number and by name.

ghost use Rattle.std.specs.Prelude.{◌≡◌, ◌≤◌, ◌↔◌, IfOk, IsTrue, slice_get, None, Some, true, false, length, option_copied};
ghost use Rattle.std.specs.List.{list_all};
ghost use Rattle.aud_event.specs.declared.signature.Format.TheVariants.{One};
ghost use Rattle.aud_event.specs.Plans.{is_name, is_name_byte, is_opening, is_kind_in, plan_of, first_plan_fault, first_value_fault, plan_fault_number, number_of, IsIndex, NumbersNames, JudgesParts};

use crate::limits::{COUNTER_MAX, COUNTER_MIN, LOGS_MAX, NAME_MAX, OBJECTS_MAX};
use crate::object::ObjKind;
use crate::signature::{Format, Opens};
use base_values::{Dup, OutOfMemory};
use std::alloc::{Allocator, Global};
use std::collections::BTreeMap;
use std::marker::Model;
use thiserror::Error;

/// An object of a plan: its name, its kind, and the value that it opens at.
///
/// `opening` is the value of a register, or the count of a counter. The other kinds open empty, and have 0 here.
#[derive(Debug, Drop)]
pub struct ObjDecl<A: Allocator = Global> {
    pub name: String<A>,
    pub kind: ObjKind,
    pub opening: i64,
}

impl<A: Allocator> Model for ObjDecl<A> {
    ghost use Rattle.std.specs.Prelude.{string_bytes};
    ghost use Rattle.aud_event.specs.Meanings.{Declared};

    ghost Value = { Declared };

    ghost view = { λ d. record { name = string_bytes d.name; kind = d.kind; opening = d.opening } };
}

impl<A: Allocator> ObjDecl<A> {
    /// Whether the two declare the same: name, kind and opening.
    pub fn same(&self, other: &ObjDecl<A>) -> bool
        ensures { IsTrue result ↔ (self.now ≡ other.now) }
    {
        self.kind == other.kind
            && self.opening == other.opening
            && self.name.as_str() == other.name.as_str()
    }
}

/// Why no plan was made, in the order in which the causes are looked for; `KindFormat` comes after `BadName`.
#[derive(Clone, Copy, Debug, PartialEq, Eq, Error)]
pub enum PlanFault {
    #[error("a plan has at least one log")]
    NoLogs,
    #[error("a plan has at most 64 logs")]
    TooManyLogs,
    #[error("a plan has at most 256 objects")]
    TooManyObjects,
    #[error("two objects have one name")]
    NameTwice,
    #[error("an object opens at a value that its kind does not open at")]
    OpeningRange,
    #[error("a name is not 1 to 32 ASCII letters, digits or underscores")]
    BadName,
    #[error("out of memory")]
    OutOfMemory,
    #[error("the plan's format does not have an object's kind")]
    KindFormat,
}

impl PlanFault {
    /// The fault's number, 1 to 8, as it is printed.
    pub fn number(&self) -> u32
        ensures { result ≡ plan_fault_number self.now }
    {
        match self {
            PlanFault::NoLogs => 1,
            PlanFault::TooManyLogs => 2,
            PlanFault::TooManyObjects => 3,
            PlanFault::NameTwice => 4,
            PlanFault::OpeningRange => 5,
            PlanFault::BadName => 6,
            PlanFault::OutOfMemory => 7,
            PlanFault::KindFormat => 8,
        }
    }
}

impl From<OutOfMemory> for PlanFault {
    ghost use Rattle.std.specs.Prelude.{◌≡◌};
    ghost use Rattle.aud_event.specs.declared.plan.PlanFault.TheVariants as fault;

    ghost from_gives = { λ _ made. made ≡ fault.OutOfMemory };

    fn from(_error: OutOfMemory) -> PlanFault {
        PlanFault::OutOfMemory
    }
}

/// A plan that fits the limits, and whose objects have different names. Objects are numbered from 0 in their order.
#[derive(Debug, Drop)]
pub struct Plan<A: Allocator = Global> {
    format: Format,
    logs: u32,
    objects: Vec<ObjDecl<A>, A>,
    numbers: BTreeMap<String<A>, u16, A>,
}

impl<A: Allocator> Model for Plan<A> {
    ghost use Rattle.aud_event.specs.Meanings.{PlanOf};

    ghost Value = { PlanOf };

    ghost use Rattle.std.specs.Prelude.{◌≡◌, None};
    ghost use Rattle.aud_event.specs.Plans.{plan_of, first_plan_fault, IsIndex};

    ghost view = { λ p. plan_of p.format p.logs p.objects.items };

    ghost invariant = { λ p. (first_plan_fault (plan_of p.format p.logs p.objects.items) ≡ None) × IsIndex p.numbers p.objects.items };
}

/// Whether a name is 1 to 32 ASCII letters, digits or underscores.
fn is_good_name(name: &str) -> bool
    ensures { result ≡ is_name name.now }
{
    let has_good_bytes = are_name_bytes(name.as_bytes());
    1 <= name.len() && name.len() <= NAME_MAX && has_good_bytes
}

fn are_name_bytes(bytes: &[u8]) -> bool
    ensures { result ≡ list_all is_name_byte bytes.now }
{
    bytes
        .iter()
        .all(|b| b.is_ascii_alphanumeric() || *b == b'_')
}

fn opens_well<A: Allocator>(decl: &ObjDecl<A>) -> bool
    ensures { result ≡ is_opening decl.now }
{
    match decl.kind.row().opens {
        Opens::Anywhere => true,
        Opens::InRange => COUNTER_MIN <= decl.opening && decl.opening <= COUNTER_MAX,
        Opens::Empty => decl.opening == 0,
    }
}

fn has_good_name<A: Allocator>(decl: &ObjDecl<A>) -> bool
    ensures { result ≡ is_name decl.now.name }
{
    is_good_name(decl.name.as_str())
}

fn all_open_well<A: Allocator>(objects: &[ObjDecl<A>]) -> bool
    ensures { result ≡ list_all is_opening objects.now }
{
    objects.iter().all(|d| opens_well(d))
}

fn have_good_names<A: Allocator>(objects: &[ObjDecl<A>]) -> bool
    ensures { result ≡ list_all (λ d. is_name d.name) objects.now }
{
    objects.iter().all(|d| has_good_name(d))
}

fn is_kind_in<A: Allocator>(format: Format, decl: &ObjDecl<A>) -> bool
    ensures { result ≡ is_kind_in format decl.now }
{
    format.has(decl.kind.row().since)
}

fn have_kinds_in<A: Allocator>(format: Format, objects: &[ObjDecl<A>]) -> bool
    ensures { result ≡ list_all (is_kind_in format) objects.now }
{
    objects.iter().all(|d| is_kind_in(format, d))
}

/// The objects' numbers by their names, or none where a name stands twice.
fn index_of<A: Allocator + Clone>(
    alloc: A,
    objects: &[ObjDecl<A>],
) -> Result<Option<BTreeMap<String<A>, u16, A>>, OutOfMemory>
    requires { length objects.now ≤ OBJECTS_MAX }
    ensures { IfOk result (NumbersNames objects.now) }
{
    let mut numbers = BTreeMap::new(alloc);
    for (number, decl) in objects.iter().enumerate() {
        let name = decl.name.clone()?;
        if numbers.insert(name, number as u16)?.is_some() {
            return Ok(None);
        }
    }
    Ok(Some(numbers))
}

/// The first fault of the objects' values, names aside from being different.
fn value_fault_of<A: Allocator>(format: Format, objects: &[ObjDecl<A>]) -> Option<PlanFault>
    ensures { result ≡ first_value_fault format objects.now }
{
    if !all_open_well(objects) {
        Some(PlanFault::OpeningRange)
    } else if !have_good_names(objects) {
        Some(PlanFault::BadName)
    } else if !have_kinds_in(format, objects) {
        Some(PlanFault::KindFormat)
    } else {
        None
    }
}

impl<A: Allocator + Clone> Plan<A> {
    /// A plan in the first format, of so many logs and of the objects, or the first fault that they have.
    ///
    /// It takes memory for an index of the names, O(n log n) time for n objects. On a fault the objects are given up.
    pub fn new(alloc: A, logs: u32, objects: Vec<ObjDecl<A>, A>) -> Result<Plan<A>, PlanFault>
        ensures made { IfOk result (λ plan. plan ≡ plan_of One logs objects.items) }
        ensures fault { JudgesParts (plan_of One logs objects.items) result }
    {
        Plan::new_in(alloc, Format::One, logs, objects)
    }

    /// A plan in the format, of so many logs and of the objects, or the first fault that they have.
    ///
    /// It takes memory for an index of the names, O(n log n) time for n objects. On a fault the objects are given up.
    pub fn new_in(
        alloc: A,
        format: Format,
        logs: u32,
        objects: Vec<ObjDecl<A>, A>,
    ) -> Result<Plan<A>, PlanFault>
        ensures made { IfOk result (λ plan. plan ≡ plan_of format logs objects.items) }
        ensures fault { JudgesParts (plan_of format logs objects.items) result }
    {
        if logs == 0 {
            return Err(PlanFault::NoLogs);
        }
        if logs > LOGS_MAX {
            return Err(PlanFault::TooManyLogs);
        }
        if objects.len() > OBJECTS_MAX {
            return Err(PlanFault::TooManyObjects);
        }
        match index_of(alloc, &objects)? {
            None => Err(PlanFault::NameTwice),
            Some(numbers) => match value_fault_of(format, &objects) {
                Some(fault) => Err(fault),
                None => Ok(Plan {
                    format,
                    logs,
                    objects,
                    numbers,
                }),
            },
        }
    }
}

impl<A: Allocator> Plan<A> {
    /// The format, which says which kinds, operations and transactions there are.
    pub fn format(&self) -> Format
        ensures format { result ≡ self.now.format }
        ensures sound { first_plan_fault self.now ≡ None }
    {
        self.format
    }

    /// How many logs there are, 1 to 64.
    pub fn logs(&self) -> u32
        ensures logs { result ≡ self.now.logs }
        ensures sound { first_plan_fault self.now ≡ None }
    {
        self.logs
    }

    /// The objects in their order, at most 256.
    pub fn objects(&self) -> &[ObjDecl<A>]
        ensures objects { result.now ≡ self.now.objects }
        ensures sound { first_plan_fault self.now ≡ None }
    {
        self.objects.as_slice()
    }

    /// The object of a number, if the plan has it.
    pub fn object(&self, number: usize) -> Option<&ObjDecl<A>>
        ensures { option_copied result ≡ slice_get self.now.objects number }
    {
        self.objects.get(number)
    }

    /// The number of the object of a name, if the plan has it, in O(log n) steps for n objects.
    pub fn number(&self, name: &str) -> Option<u16>
        ensures { result ≡ number_of name.now self.now.objects }
    {
        self.numbers.get(name).copied()
    }

    /// Whether the two plans have one format, equal logs and equal objects in one order.
    pub fn same(&self, other: &Plan<A>) -> bool
        ensures { IsTrue result ↔ (self.now ≡ other.now) }
    {
        same_objects(&self.objects, &other.objects)
            && self.logs == other.logs
            && self.format == other.format
    }
}

fn same_objects<A: Allocator>(objects: &[ObjDecl<A>], others: &[ObjDecl<A>]) -> bool
    ensures { IsTrue result ↔ (objects.now ≡ others.now) }
{
    if objects.len() != others.len() {
        return false;
    }
    for i in 0..objects.len() {
        if !objects[i].same(&others[i]) {
            return false;
        }
    }
    true
}

impl<A: Allocator + Clone> Dup for ObjDecl<A> {
    fn dup(&self) -> Result<ObjDecl<A>, OutOfMemory> {
        let name = self.name.clone()?;
        Ok(ObjDecl {
            name,
            kind: self.kind,
            opening: self.opening,
        })
    }
}

fn copies<A: Allocator + Clone>(
    alloc: A,
    objects: &[ObjDecl<A>],
) -> Result<Vec<ObjDecl<A>, A>, OutOfMemory>
    ensures { IfOk result (λ copies. copies.items ≡ objects.now) }
{
    let mut copies = Vec::new(alloc);
    for decl in objects {
        copies.push(decl.dup()?)?;
    }
    Ok(copies)
}

impl<A: Allocator + Clone> Dup for Plan<A> {
    fn dup(&self) -> Result<Plan<A>, OutOfMemory> {
        let objects = copies(self.objects.allocator().clone()?, &self.objects)?;
        let numbers = self.numbers.clone()?;
        Ok(Plan {
            format: self.format,
            logs: self.logs,
            objects,
            numbers,
        })
    }
}
