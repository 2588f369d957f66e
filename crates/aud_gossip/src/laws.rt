//! Laws of the definitions. Each function does nothing: its contract is the law.

ghost use Rattle.aud_gossip.specs.Deltas.{DeltasAreEnough, LastIsJoin};
ghost use Rattle.aud_gossip.specs.Worlds.{NodesAreOfWorlds};

use aud_know::laws::{norm_absorbs, norm_is_of_set};
use aud_world::laws::logs_are_moves;
use std::alloc::Global;

/// The join of the deltas that an outbox gave is the join of the packets that it took.
pub fn deltas_are_enough()
    ensures { DeltasAreEnough }
{}

/// Of snapshots of one pass, in their order, the join is the last.
pub fn last_is_join()
    ensures { LastIsJoin }
{
    norm_absorbs();
    norm_is_of_set();
}

/// A running node whose log a node of a world took, each item by a move, has at each view a state of that node. So what `aud_world`
/// says of nodes at any moments holds of running nodes and of their readings.
pub fn nodes_are_of_worlds()
    ensures { NodesAreOfWorlds }
{
    logs_are_moves::<Global>();
}
