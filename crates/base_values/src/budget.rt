//! What a search may spend.

ghost use Rattle.std.specs.Prelude.{◌≡◌, Some, MatchOption};
ghost use Rattle.base_values.specs.Budgets.{IsOneLess};

/// What is left of a budget once a unit of it is spent; nothing where none is left. Without a budget there is no end.
pub fn spend(left: Option<u64>) -> Option<Option<u64>>
    ensures { MatchOption result (left ≡ Some 0) (λ rest. IsOneLess left rest) }
{
    match left {
        None => Some(None),
        Some(0) => None,
        Some(count) => Some(Some(count - 1)),
    }
}
