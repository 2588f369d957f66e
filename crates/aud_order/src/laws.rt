//! Laws of the definitions. Each function does nothing: its contract is the law.

ghost use Rattle.aud_order.specs.Moves.{SilentMovesForward, ConfigurationsDecide};

/// A silent transaction may be placed at once where it is good.
pub fn silent_moves_forward()
    ensures { SilentMovesForward }
{}

/// Which transactions are placed, and the states of all objects, decide what may follow a good prefix.
pub fn configurations_decide()
    ensures { ConfigurationsDecide }
{}
