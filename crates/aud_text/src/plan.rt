//! Reading the text of a plan.

ghost use Rattle.std.specs.Prelude.{◌≡◌, ◌+◌, ◌≤◌, ◌⊎◌, Ok, Err, length, MatchResult};
ghost use Rattle.aud_text.specs.Lines.{lines_of};
ghost use Rattle.aud_text.specs.PlanText.{plan_read, objects_left, at_line, reported_as};

use crate::fault::PlanTextFault;
use crate::header::{Header, fault_of_header, read_header};
use crate::line::{count_lines, next_filled};
use crate::object::read_object;
use aud_event::{ObjDecl, Plan, PlanFault};
use aud_json::TextFault;
use std::alloc::Global;

/// The fault of a text that ends too early: it stands at the line after the last.
fn ends_early(text: &[u8]) -> PlanTextFault
    ensures { result ≡ at_line (length (lines_of text.now) + 1) TextFault.KeyMissing }
{
    PlanTextFault {
        line: count_lines(text) + 1,
        fault: TextFault::KeyMissing,
    }
}

/// A fault of the objects together: it stands at no line.
fn whole_fault(fault: PlanFault) -> PlanTextFault
    ensures { result ≡ at_line 0 (reported_as fault) }
{
    let reported = match fault {
        PlanFault::OutOfMemory => TextFault::OutOfMemory,
        other => TextFault::Plan(other),
    };
    PlanTextFault {
        line: 0,
        fault: reported,
    }
}

/// The objects of so many lines of what is left of the text, and the bytes of the text up to the end of the last of them.
fn read_objects(
    alloc: Global,
    header: Header,
    text: &[u8],
    left: &[u8],
    number: usize,
) -> Result<(Vec<ObjDecl>, usize), PlanTextFault>
    requires within { length left.now ≤ length text.now }
    requires room { number + length left.now ≤ length text.now + 1 }
    ensures { MatchResult result
        (λ p. objects_left header.format text.now left.now number header.objects ≡ Ok (p.0.items, p.1))
        (λ e. (e.fault ≡ TextFault.OutOfMemory) ⊎ (objects_left header.format text.now left.now number header.objects ≡ Err e)) }
{
    let mut objects = Vec::new(alloc);
    let mut rest = left;
    let mut line = number;
    for i in 0..header.objects {
        let Some(next) = next_filled(rest, line) else {
            return Err(ends_early(text));
        };
        line = next.number;
        let object = match read_object(alloc, header.format, next.line) {
            Ok(object) => object,
            Err(fault) => return Err(PlanTextFault { line, fault }),
        };
        if objects.push(object).is_err() {
            return Err(PlanTextFault {
                line,
                fault: TextFault::OutOfMemory,
            });
        }
        rest = next.rest;
        line += 1;
    }
    Ok((objects, text.len() - rest.len()))
}

/// The plan that a text begins with, and the bytes up to the end of its last line, its line feed included.
///
/// A fault of the objects together is reported at line 0, and a text that ends too early at the line after its last.
pub fn read_plan(alloc: Global, text: &[u8]) -> Result<(Plan, usize), PlanTextFault>
    ensures { MatchResult result (λ p. plan_read text.now ≡ Ok (p.0, p.1))
        (λ e. (e.fault ≡ TextFault.OutOfMemory) ⊎ (plan_read text.now ≡ Err e)) }
{
    let Some(first) = next_filled(text, 1) else {
        return Err(ends_early(text));
    };
    let line = first.number;
    let header = match read_header(alloc, first.line) {
        Ok(header) => header,
        Err(fault) => return Err(PlanTextFault { line, fault }),
    };
    if let Some(fault) = fault_of_header(header) {
        return Err(PlanTextFault {
            line,
            fault: TextFault::Plan(fault),
        });
    }
    let (objects, used) = match read_objects(alloc, header, text, first.rest, line + 1) {
        Ok(read) => read,
        Err(fault) => return Err(fault),
    };
    match Plan::new_in(alloc, header.format, header.logs, objects) {
        Ok(plan) => Ok((plan, used)),
        Err(fault) => Err(whole_fault(fault)),
    }
}
