//! The laws of what a history is split into.

use aud_split::laws::{known_is_kept, pool_ends_all, search_is_said, tasks_close};
use std::alloc::Global;

#[test]
fn the_laws_are_called() {
    tasks_close();
    pool_ends_all();
    known_is_kept();
    search_is_said::<Global>();
}
