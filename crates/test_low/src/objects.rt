//! Which operations observe, and the laws of objects.

use aud_event::Op;
use aud_object::laws;

#[test]
fn only_operations_that_change_nothing_observe(rt: HostRuntime) {
    let observes = [
        Op::Read.observes(),
        Op::Write(9).observes(),
        Op::Get.observes(),
        Op::Inc.observes(),
        Op::Contains(3).observes(),
        Op::Add(3).observes(),
        Op::Deq.observes(),
        Op::Look(3).observes(),
        Op::Put(3, 9).observes(),
    ];
    assert!(rt; observes == [true, false, true, false, true, false, false, true, false]);
}

#[test]
fn the_laws_hold(_rt: HostRuntime) {
    laws::each_row_counts();
    laws::replay_is_legality();
    laws::opening_is_legality();
    laws::legality_is_by_parts();
    laws::blocks_replay_in_turn();
}
