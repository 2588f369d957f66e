//! The laws of sets of facts.

use aud_facts::laws::{
    joins_associate, joins_commute, joins_repeat, parts_are_quiet, quiet_is_no_conflict,
    sealed_is_all, sealed_is_full,
};

#[test]
fn the_laws_hold(_rt: HostRuntime) {
    sealed_is_full();
    quiet_is_no_conflict();
    parts_are_quiet();
    sealed_is_all();
    joins_commute();
    joins_associate();
    joins_repeat();
}
