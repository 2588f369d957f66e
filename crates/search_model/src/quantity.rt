//! Numbers that transactions change.

ghost use Rattle.std.specs.Prelude.{◌≡◌};
ghost use Rattle.search_model.specs.Quantities.{object_of};

/// A number that each transaction changes by so much.
#[derive(Clone, Copy, PartialEq, Eq)]
pub enum Quantity {
    /// What the counter counts.
    Count(u16),
    /// 1 where the element is in the set, else 0.
    Element(u16, i64),
    /// How many items were taken from the queue.
    Takes(u16),
    /// How many items were added to the queue.
    Additions(u16),
    /// How many items were taken from the queue, less how many were added.
    Shortening(u16),
}

/// The object that the number is about.
pub fn object_of(quantity: Quantity) -> u16
    ensures { result ≡ object_of quantity }
{
    match quantity {
        Quantity::Count(object)
        | Quantity::Element(object, _)
        | Quantity::Takes(object)
        | Quantity::Additions(object)
        | Quantity::Shortening(object) => object,
    }
}
