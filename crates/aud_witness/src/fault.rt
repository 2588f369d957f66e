//! What is reported of an order that does not show a history.

ghost use Rattle.std.specs.Prelude.{◌≡◌};
ghost use Rattle.aud_witness.specs.OrderFaultNumbers.{order_fault_number, order_fault_transaction};

use thiserror::Error;

/// What is wrong at the first wrong place of an order, with the transaction that it is about.
#[derive(Clone, Copy, Debug, PartialEq, Eq, Error)]
pub enum OrderFault {
    #[error("transaction {0} is not in the history")]
    UnknownTx(u32),
    #[error("transaction {0} stands twice")]
    Twice(u32),
    #[error("transaction {0} cannot have that fate")]
    FateNotAllowed(u32),
    #[error("transaction {0} stands before one that was completed before it began")]
    RealTime(u32),
    #[error("transaction {0} got an answer that it cannot get there")]
    Illegal(u32),
    #[error("transaction {0} is missing")]
    Missing(u32),
}

impl OrderFault {
    /// The fault's number, 1 to 6, as it is printed.
    pub fn number(&self) -> u32
        ensures { result ≡ order_fault_number self.now }
    {
        match self {
            OrderFault::UnknownTx(_) => 1,
            OrderFault::Twice(_) => 2,
            OrderFault::FateNotAllowed(_) => 3,
            OrderFault::RealTime(_) => 4,
            OrderFault::Illegal(_) => 5,
            OrderFault::Missing(_) => 6,
        }
    }

    /// The transaction that the fault is about.
    pub fn transaction(&self) -> u32
        ensures { result ≡ order_fault_transaction self.now }
    {
        match self {
            OrderFault::UnknownTx(tx)
            | OrderFault::Twice(tx)
            | OrderFault::FateNotAllowed(tx)
            | OrderFault::RealTime(tx)
            | OrderFault::Illegal(tx)
            | OrderFault::Missing(tx) => *tx,
        }
    }
}
