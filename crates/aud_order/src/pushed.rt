//! What a cursor says of a decision.

ghost use Rattle.std.specs.Prelude.{◌≡◌, ◌↔◌, IsTrue};
ghost use Rattle.aud_order.specs.Cursors.{pushed_by_fault};

use aud_witness::OrderFault;

/// What became of a decision that was pushed: the first of these that holds.
#[derive(Clone, Copy, Debug, PartialEq, Eq)]
pub enum Pushed {
    /// The transaction is not in the history, is placed already, or cannot have the fate.
    NotAChoice,
    /// A transaction that ended before it began is not placed.
    NotEnabled,
    /// Its answers are not those of the objects there.
    Illegal,
    /// It is placed.
    Good,
}

impl Pushed {
    /// Whether the decision was placed.
    pub fn is_good(self) -> bool
        ensures { IsTrue result ↔ (self ≡ Pushed.Good) }
    {
        match self {
            Pushed::Good => true,
            Pushed::NotAChoice | Pushed::NotEnabled | Pushed::Illegal => false,
        }
    }

    /// What is reported where something is wrong with the decision.
    pub(crate) fn of_fault(fault: OrderFault) -> Pushed
        ensures { result ≡ pushed_by_fault fault }
    {
        match fault {
            OrderFault::UnknownTx(_) | OrderFault::Twice(_) | OrderFault::FateNotAllowed(_) => {
                Pushed::NotAChoice
            }
            OrderFault::RealTime(_) => Pushed::NotEnabled,
            OrderFault::Illegal(_) => Pushed::Illegal,
            OrderFault::Missing(_) => Pushed::NotAChoice,
        }
    }
}
