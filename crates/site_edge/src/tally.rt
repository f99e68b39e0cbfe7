//! Which link calls of a site in memory fail, and how many did.
ghost use Rattle.std.specs.Prelude.{◌≡◌, ◌<◌, ◌+◌, ◌^◌, ◌&&◌, ◌↔◌, if◌then◌else◌, is_ok, Contains, IsTrue, IsFalse};
ghost use Rattle.disk_trait.specs.Calls.{IsCounted};
ghost use Rattle.disk_trait.specs.MemoryDisk.{counted_on};
ghost use Rattle.site_edge.specs.Tallies.{CountsCall};

use crate::LinkFailed;
use disk_trait::NumberList;

/// The numbers of the calls that fail, the number of the last call, how many calls were starved,
/// and the counts of link faults and of peer faults.
#[derive(Drop)]
pub(crate) struct Tally {
    pub fail: NumberList,
    pub made: u64,
    pub starved: u64,
    pub faults: u64,
    pub peer_faults: u64,
}

/// Whether the next call has a number: after the last value of a `u64` none has.
pub(crate) fn has_number(tally: &Tally) -> bool
    ensures { IsTrue result ↔ (tally.now.made + 1 < 2 ^ 64) }
{
    tally.made < u64::MAX
}

/// Whether the next call has a number that isn't among those that fail.
pub(crate) fn passes(tally: &Tally) -> bool
    ensures numbered { IsTrue result → tally.now.made + 1 < 2 ^ 64 }
    ensures listed { tally.now.made + 1 < 2 ^ 64
        → (IsFalse result ↔ Contains tally.now.fail (tally.now.made + 1)) }
{
    match tally.made.checked_add(1) {
        Some(number) => !tally.fail.numbers().contains(&number),
        None => false,
    }
}

/// Counts a call that was noted under the next number, or that was starved.
pub(crate) fn count(tally: &mut Tally, noted: bool, passes: bool) -> Result<(), LinkFailed>
    requires numbered { IsTrue noted → tally.old.made + 1 < 2 ^ 64 }
    requires listed { tally.old.made + 1 < 2 ^ 64
        → (IsFalse passes ↔ Contains tally.old.fail (tally.old.made + 1)) }
    ensures answer { is_ok result ≡ (noted && passes) }
    ensures counts { CountsCall tally.old tally.new (is_ok result) }
    ensures number { tally.new.made ≡ (if noted then tally.old.made + 1 else tally.old.made) }
    ensures peer_faults { tally.new.peer_faults ≡ tally.old.peer_faults }
{
    if noted {
        tally.made += 1;
    } else {
        tally.starved = tally.starved.saturating_add(1);
    }
    if noted && passes {
        return Ok(());
    }
    tally.faults = tally.faults.saturating_add(1);
    Err(LinkFailed)
}

/// Counts a call that waits for a peer.
pub(crate) fn count_peer(tally: &mut Tally, noted: bool, passes: bool) -> Result<(), LinkFailed>
    requires numbered { IsTrue noted → tally.old.made + 1 < 2 ^ 64 }
    requires listed { tally.old.made + 1 < 2 ^ 64
        → (IsFalse passes ↔ Contains tally.old.fail (tally.old.made + 1)) }
    ensures answer { is_ok result ≡ (noted && passes) }
    ensures counts { CountsCall tally.old tally.new (is_ok result) }
    ensures peer_faults { IsCounted (is_ok result) tally.old.peer_faults tally.new.peer_faults }
{
    let answer = count(tally, noted, passes);
    if answer.is_err() {
        tally.peer_faults = tally.peer_faults.saturating_add(1);
    }
    answer
}

/// Counts a `dial` that failed, for want of memory or because no peer was left. It takes no number.
pub(crate) fn count_dial(tally: &mut Tally, starved: bool)
    ensures { tally.new ≡ record tally.old {
      faults = counted_on tally.old.faults;
      starved = if starved then counted_on tally.old.starved else tally.old.starved;
    } }
{
    if starved {
        tally.starved = one_more(tally.starved);
    }
    tally.faults = one_more(tally.faults);
}

/// One more, up to the last value of a `u64`.
fn one_more(count: u64) -> u64
    ensures { result ≡ counted_on count }
{
    count.saturating_add(1)
}
