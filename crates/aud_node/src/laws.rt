//! Laws of the definitions. Each function does nothing: its contract is the law.

ghost use Rattle.aud_node.specs.Laws.{StateIsOfAtoms};

use aud_know::laws::norm_is_of_set;

/// Logs whose items have the same atoms leave equal states: the seats, the order, the grouping and repeats do not show.
pub fn state_is_of_atoms()
    ensures { StateIsOfAtoms }
{
    norm_is_of_set();
}
