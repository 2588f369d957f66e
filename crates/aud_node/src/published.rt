//! What the readers of a node take: a beginning of its history, and what that makes known.

ghost use Rattle.std.specs.Prelude.{◌≡◌, IfOk};
ghost use Rattle.aud_node.specs.Logs.{state_of};
ghost use Rattle.aud_node.specs.Meanings.{ReportsWhetherBegins};

use crate::book::{Fleet, Front};
use aud_event::Plan;
use aud_know::Knowledge;
use crossbeam_utils::rule::{Outcome, Protocol};
use left_right::Absorb;
use std::alloc::AllocError;
use std::marker::PhantomData;
use std::sync::Arc;

/// A beginning of a history, and the knowledge that it makes.
#[derive(Drop)]
pub struct Published {
    pub known: Arc<Knowledge>,
    pub front: Front,
    ghost is: { known.value ≡ state_of known.value.plan front.log },
}

impl Published {
    /// A copy that shares the knowledge. It does not allocate: it fails only where the knowledge has all the owners that it
    /// may have.
    pub fn copy(&self) -> Result<Published, AllocError>
        ensures front { IfOk result (λ p. p.front ≡ self.now.front) }
        ensures plan { IfOk result (λ p. p.known.value.plan ≡ self.now.known.value.plan) }
    {
        let known = Arc::try_clone(&self.known)?;
        Ok(Published {
            known,
            front: self.front.copy(),
        })
    }
}

/// What was published last replaces all before it.
impl Absorb<Published> for Published {
    type State = (Front, Plan);

    ghost state = { λ p. (p.front, p.known.value.plan) };

    ghost applied = { λ _ p. (p.front, p.known.value.plan) };

    fn absorb_first(
        &mut self,
        operation: &Published,
        _other: &Published,
    ) -> Result<(), AllocError> {
        match operation.copy() {
            Ok(next) => {
                *self = next;
                Ok(())
            }
            Err(error) => Err(error),
        }
    }
}

/// The rule of what readers take: it is of the fleet's history and plan of its number.
pub struct Named<J> {
    fleet: PhantomData<J>,
}

impl<J: Fleet> Protocol<Published, ()> for Named<J> {
    ghost holds = { λ p _. (p.front.book ≡ J.book p.front.number) × (p.known.value.plan ≡ J.plan p.front.number) };

    ghost first = { tt };
}

/// What a reading or a publish gives.
pub struct Reads<J> {
    fleet: PhantomData<J>,
}

impl<J: Fleet> Outcome<Published, ()> for Reads<J> {
    ghost then = { λ _ _ p _. (p.front.book ≡ J.book p.front.number) × (p.known.value.plan ≡ J.plan p.front.number) };
}

/// What was published, of the fleet's history and plan of its number.
#[derive(Drop)]
pub struct Held<J: Fleet> {
    pub latest: Published,
    fleet: PhantomData<J>,
    ghost named: { latest.front.book ≡ J.book latest.front.number },
    ghost planned: { latest.known.value.plan ≡ J.plan latest.front.number },
}

impl<J: Fleet> Held<J> {
    /// What was published, where it is the fleet's.
    pub fn new(latest: Published) -> Held<J>
        requires named { latest.front.book ≡ J.book latest.front.number }
        requires planned { latest.known.value.plan ≡ J.plan latest.front.number }
        ensures { result.latest ≡ latest }
    {
        Held {
            latest,
            fleet: PhantomData,
        }
    }

    /// Whether what the other holds begins with what this one holds, and is of the same node.
    pub fn begins(&self, other: &Held<J>) -> bool
        ensures { ReportsWhetherBegins result self.now.latest.front other.now.latest.front }
    {
        if self.latest.front.number() != other.latest.front.number() {
            return false;
        }
        self.latest.front.begins(&other.latest.front)
    }

    /// A copy that shares the knowledge.
    pub fn copy(&self) -> Result<Held<J>, AllocError>
        ensures { IfOk result (λ h. h.latest.front ≡ self.now.latest.front) }
    {
        let latest = self.latest.copy()?;
        Ok(Held::new(latest))
    }
}
