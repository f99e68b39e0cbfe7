//! Time that was spent.
use libc::types::timespec;

/// The microseconds of the machine's steady clock, which start anywhere; 0 where it can't be read.
pub(crate) fn steady_micros() -> u64 {
    let mut time = timespec {
        tv_sec: 0,
        tv_nsec: 0,
    };
    if libc::clock_gettime(libc::CLOCK_MONOTONIC, &mut time) != 0 {
        return 0;
    }
    let nanos = time.tv_nsec.unsigned_abs();
    time.tv_sec
        .unsigned_abs()
        .saturating_mul(1_000_000)
        .saturating_add(nanos / 1_000)
}
