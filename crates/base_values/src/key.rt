//! Total orders in which only equal values tie, for the elements of sets and the keys of maps.

ghost use Rattle.base_values.specs.Exact.{IsExact, nat_exact, int_exact};

/// A total order in which only equal values tie: what a set knows by comparing, it knows by equality.
pub trait Key: Ord {
    ghost exact: { IsExact Self.Ord.cmp };
}

impl Key for u32 {
    ghost exact = { nat_exact };
}

impl Key for i64 {
    ghost exact = { int_exact };
}
