//! A clock over a list of moments.
ghost use Rattle.std.specs.Prelude.{◌≡◌, ◌<◌, ◌+◌, ◌^◌, ◌∷◌, ◌++◌, [], true, length, All};
ghost use Rattle.site_edge.specs.Clocks.{IsMoment};
ghost use Rattle.site_edge.specs.ListClock.{count_after, not_begun, moment_after, listing_tells, listing_given};

use crate::Clock;
use disk_trait::NumberList;
use std::marker::Model;

/// Gives the moments of a list in order, then its last one again and again, and 0 where the list is
/// empty. It counts them, and tells none once there were more than a `u64` counts.
#[derive(Drop)]
pub struct ListClock {
    moments: NumberList,
    count: Option<u64>,
}

impl Model for ListClock {
    ghost use Rattle.std.specs.Prelude.{All};
    ghost use Rattle.site_edge.specs.Clocks.{IsMoment};
    ghost use Rattle.site_edge.specs.ListClock.{Listing};

    ghost Value = { Listing };

    ghost view = { λ c. record { moments = c.moments; count = c.count } };

    ghost invariant = { λ c. All IsMoment c.moments };
}

impl ListClock {
    /// A clock that gave no moment yet. It takes no memory.
    pub fn new(moments: NumberList) -> ListClock
        requires { All IsMoment moments }
        ensures { result ≡ not_begun moments }
    {
        ListClock {
            moments,
            count: Some(0),
        }
    }
}

impl Clock for ListClock {
    ghost tells = { listing_tells };

    ghost given = { listing_given };

    fn now(&mut self) -> u64
        ensures moment { IsMoment result }
        ensures told_before { listing_tells self.new ≡ true → listing_tells self.old ≡ true }
        ensures lasts { listing_tells self.old ≡ true
            → length (listing_given self.old) + 1 < 2 ^ 64 → listing_tells self.new ≡ true }
        ensures given { listing_tells self.new ≡ true
            → listing_given self.new ≡ listing_given self.old ++ result ∷ [] }

        // The list stays, so that its last moment comes again and again, and each moment is counted.
        ensures list { self.new.moments ≡ self.old.moments }
        ensures count { self.new.count ≡ count_after self.old.count }
    {
        let count = self.count.unwrap_or(u64::MAX);
        self.count = count.checked_add(1);
        moment_at(self.moments.numbers(), count)
    }
}

/// The moment that comes after so many others.
fn moment_at(moments: &[u64], count: u64) -> u64
    ensures { result ≡ moment_after moments.now count }
{
    match moments.len().checked_sub(1) {
        Some(last) => moments[last.min(count as usize)],
        None => 0,
    }
}
