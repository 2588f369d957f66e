//! Laws of the definitions. Each function does nothing: its contract is the law.

ghost use Rattle.aud_split.specs.Laws.{TasksClose, KnownIsKept, PoolEndsAll, SearchIsSaid};

use std::alloc::Allocator;

/// A cover that has a beginning of each task below a prefix closes the prefix.
pub fn tasks_close()
    ensures { TasksClose }
{}

/// The cover of a normal form has a beginning of a prefix exactly where one of its atoms refutes a beginning of it, and it has a
/// witness exactly where one of its atoms is a witness.
pub fn known_is_kept()
    ensures { KnownIsKept }
{}

/// Let the history of a sealed part of what a Knowledge has of facts be split, and let each task have ended by what was taken.
/// Then the verdict is one on facts that are not sealed; or the part is all facts, and the verdict is Opaque with an order that
/// shows the history; or NotOpaque, and none shows it; or Unfinished, each task is refuted or spent, and one is spent.
pub fn search_is_said<A: Allocator>()
    ensures { SearchIsSaid A }
{}

/// Where a pool that has a worker met no fault, each of its tasks ended by what one of its passes has seen.
pub fn pool_ends_all()
    ensures { PoolEndsAll }
{}
