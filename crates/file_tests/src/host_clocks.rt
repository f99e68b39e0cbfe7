//! The machine's clock.
use site_edge::{Clock, HostClock};

/// A reading of any clock.
fn read<C: Clock>(clock: &mut C) -> u64 {
    clock.now()
}

#[test]
fn the_machine_is_set_to_this_century(rt: HostRuntime) {
    let mut clock = HostClock::new(rt);
    let first = read(&mut clock);
    assert!(rt; first > 1_700_000_000, "it read {first}");
    assert!(rt; first < 4_102_444_800, "it read {first}");
}
