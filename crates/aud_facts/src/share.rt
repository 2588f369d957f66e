//! The facts of a share of the logs.

ghost use Rattle.std.specs.Prelude.{◌≡◌, ◌<◌, IfOk};
ghost use Rattle.aud_facts.specs.Shares.{is_of_share, share_of};

use aud_event::{Fact, OutOfMemory};
use aud_lattice::UnionSet;
use std::alloc::Allocator;

/// Whether the fact is of the share of the number, of so many.
fn is_of_share(fact: &Fact, shares: usize, number: usize) -> bool
    requires { 0 < shares }
    ensures { result ≡ is_of_share shares number fact.now }
{
    let log = match fact {
        Fact::Rec(record) => record.log,
        Fact::End(mark) => mark.log,
    };
    log as usize % shares == number
}

/// The facts of the share of the number, of so many, least first.
pub(crate) fn listed_share<A: Allocator + Copy>(
    alloc: A,
    set: &UnionSet<Fact, A>,
    shares: usize,
    number: usize,
) -> Result<Vec<Fact, A>, OutOfMemory>
    requires { 0 < shares }
    ensures { IfOk result (λ share. share.items ≡ share_of shares number set.now) }
{
    let mut share = Vec::new(alloc);
    for fact in set.items() {
        if is_of_share(fact, shares, number) {
            share.push(*fact)?;
        }
    }
    Ok(share)
}
