//! What a transaction did: its executions, and at most one invocation after them.

ghost use Rattle.std.specs.Prelude.{◌≡◌, [], None, Some, OnOk, OnErr};
ghost use Rattle.aud_object.specs.Blocks.{invoked, answered};

use crate::execution::{Execution, Invocation};
use aud_event::{Answer, Dup, OutOfMemory};
use std::alloc::{Allocator, Global};
use std::marker::Model;

/// The executions of a transaction in their order, and the invocation that had no response yet, if there is one.
#[derive(Debug, Drop)]
pub struct Block<A: Allocator = Global> {
    executions: Vec<Execution, A>,
    trailing: Option<Invocation>,
}

impl<A: Allocator> Model for Block<A> {
    ghost use Rattle.aud_object.specs.Blocks.{BlockOf};

    ghost Value = { BlockOf };

    ghost view = { λ b. record { executions = b.executions.items; trailing = b.trailing } };
}

impl<A: Allocator> Block<A> {
    /// The block of these executions, and of the invocation that waits after them. It does not allocate.
    pub fn new(executions: Vec<Execution, A>, trailing: Option<Invocation>) -> Block<A>
        ensures { result ≡ record { executions = executions.items; trailing = trailing } }
    {
        Block {
            executions,
            trailing,
        }
    }

    /// The block of a transaction that did nothing yet. It does not allocate.
    pub fn empty(alloc: A) -> Block<A>
        ensures { result ≡ record { executions = []; trailing = None } }
    {
        Block::new(Vec::new(alloc), None)
    }

    /// The transaction invokes an operation, which then waits for its answer.
    pub fn invoke(&mut self, invocation: Invocation)
        ensures { self.new ≡ invoked self.old invocation }
    {
        self.trailing = Some(invocation);
    }

    /// The waiting operation is answered. Where none waits, nothing happens. A refused growth leaves the block.
    pub fn answer(&mut self, answer: Answer) -> Result<(), OutOfMemory>
        ensures ok { OnOk result (self.new ≡ answered self.old answer) }
        ensures err { OnErr result (self.new ≡ self.old) }
    {
        if let Some(Invocation { object, op }) = self.trailing {
            self.executions.push(Execution { object, op, answer })?;
            self.trailing = None;
        }
        Ok(())
    }

    /// The executions, in their order.
    pub fn executions(&self) -> &[Execution]
        ensures { result.now ≡ self.now.executions }
    {
        &self.executions
    }

    /// The invocation that had no response.
    pub fn trailing(&self) -> Option<Invocation>
        ensures { result ≡ self.now.trailing }
    {
        self.trailing
    }
}

impl<A: Allocator + Clone> Dup for Block<A> {
    fn dup(&self) -> Result<Block<A>, OutOfMemory> {
        let executions = self.executions.clone()?;
        Ok(Block::new(executions, self.trailing))
    }
}
