//! The search below one task, by a worker with a pass of a node.

ghost use Rattle.std.specs.Prelude.{◌≡◌};
ghost use Rattle.aud_order.specs.Shapes.{plan_of};
ghost use Rattle.aud_node.specs.Meanings.{IsOfNode};
ghost use Rattle.aud_split.specs.Pools.{HasSearched, IsSettled};

use aud_event::OutOfMemory;
use aud_know::Item;
use aud_node::{Fleet, OfferFault, Pass, Running};
use aud_order::Shape;
use aud_search::{Scene, Session, Shared};
use aud_witness::Prefix;
use node_pool::Work;
use node_task::find;
use std::alloc::Global;
use std::sync::{Arc, Wait};

/// The search below tasks of one history, for a node of its plan.
#[derive(Drop)]
pub(crate) struct Explorer<'a, H: Scene, J: Fleet, S: Wait + Drop> {
    pub alloc: Global,
    pub node: &'a Running<J, S>,
    pub shape: &'a Arc<Shape>,
    pub shared: Option<&'a Shared<H>>,
    pub budget: u64,
    // The history is the one that the scene names.
    pub ghost named: { shape.now.value ≡ H.shape },
}

impl<'a, H: Scene, J: Fleet, S: Wait + Drop> Work<Prefix, Pass<J>, Session<'a, H>>
    for Explorer<'a, H, J, S> {
    ghost use Rattle.std.specs.Prelude.{◌≡◌};
    ghost use Rattle.aud_order.specs.Shapes.{plan_of};
    ghost use Rattle.aud_node.specs.Meanings.{IsOfNode};
    ghost use Rattle.aud_split.specs.Pools.{HasSearched, IsSettled};
    ghost use Rattle.aud_split.specs.Settling.{settled_later, still_at, searched_itself, searched_onward};

    ghost fits = { λ w session. session ≡ w.shape.now.value };

    ghost may_work = { λ w pass. IsOfNode w.node.now pass × (plan_of w.shape.now.value ≡ w.node.now.plan) };

    ghost done = { λ w pass task. IsSettled w.shape.now.value w.budget pass.view task };

    ghost grows = { λ w old new. HasSearched w.shape.now.value old new };

    // A worker remembers what it refuted below its earlier tasks.
    fn begin(&self) -> Session<'a, H> {
        Session::new(self.alloc, self.shape, self.shared)
    }

    // A task that the node knows to be refuted is not searched.
    fn work<R: Wait>(
        &self,
        rt: &R,
        pass: &mut Pass<J>,
        session: &mut Session<'a, H>,
        task: &Prefix,
    ) -> Result<(), OutOfMemory> {
        let Ok(is_known) = self.node.knows(pass, task) else {
            unreachable!()
        };
        if is_known {
            return Ok(());
        }
        let Some(finding) = find(session, self.shape, task, self.budget)? else {
            return Ok(());
        };
        match self
            .node
            .offer(rt, self.alloc, pass, Item::Finding(finding))
        {
            Ok(()) => Ok(()),
            Err((_, OfferFault::OutOfMemory)) => Err(OutOfMemory),
            Err(_) => unreachable!(),
        }
    }

    ghost stays = { λ w old new task on settled. settled_later w.shape.now.value w.budget old.view new.view task on.view settled };

    ghost still_may_work = { λ w old new on may. (still_at w.shape.now.value w.node.now old new on may.0, may.1) };

    ghost grows_from_itself = { λ w pass. searched_itself w.shape.now.value pass };

    ghost grows_onward = { λ w one two three first second. searched_onward w.shape.now.value one two three first second };
}
