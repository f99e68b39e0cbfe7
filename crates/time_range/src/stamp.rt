//! A timestamp: a number of nanoseconds within a limit.
ghost use Rattle.std.specs.Prelude.{◌≡◌, ◌+ℤ◌, ◌-ℤ◌, ◌↔◌, IsSome, IfSome};
ghost use Rattle.time_range.specs.Points.{IsNanos};

use std::marker::Model;

/// The largest magnitude of a timestamp, in nanoseconds.
pub(crate) const LIMIT: i128 = 281_474_976_710_655_999_999_999;

/// A moment or a distance in time, in nanoseconds.
#[derive(Clone, Copy, Debug, PartialEq, Eq, PartialOrd, Ord)]
pub struct Ts {
    nanos: i128,
}

impl Model for Ts {
    ghost use Rattle.std.specs.Prelude.{ℤ};
    ghost use Rattle.time_range.specs.Points.{IsNanos};

    ghost Value = { ℤ };

    ghost view = { λ t. t.nanos };

    ghost inverse = { λ n. record { nanos = n } };

    ghost invariant = { λ t. IsNanos t.nanos };
}

impl Ts {
    /// `None` exactly where the nanoseconds pass the limit of 281,474,976,710,655,999,999,999, at
    /// either sign.
    pub fn from_nanos(n: i128) -> Option<Ts>
        ensures within { IsSome result ↔ IsNanos n }
        ensures value { IfSome result (λ t. t ≡ n) }
    {
        if -LIMIT <= n && n <= LIMIT {
            Some(Ts { nanos: n })
        } else {
            None
        }
    }

    /// A timestamp of nanoseconds that are known to lie within the limit.
    pub(crate) fn from_valid_nanos(n: i128) -> Ts
        requires { IsNanos n }
        ensures { result ≡ n }
    {
        Ts { nanos: n }
    }

    pub fn nanos(&self) -> i128
        ensures value { result ≡ self.now }
        ensures within { IsNanos self.now }
    {
        self.nanos
    }

    /// `None` exactly past the limit, as for `checked_sub`.
    pub fn checked_add(&self, by: Ts) -> Option<Ts>
        ensures within { IsSome result ↔ IsNanos (self.now +ℤ by) }
        ensures value { IfSome result (λ t. t ≡ self.now +ℤ by) }
    {
        Ts::from_nanos(self.nanos + by.nanos)
    }

    pub fn checked_sub(&self, by: Ts) -> Option<Ts>
        ensures within { IsSome result ↔ IsNanos (self.now -ℤ by) }
        ensures value { IfSome result (λ t. t ≡ self.now -ℤ by) }
    {
        Ts::from_nanos(self.nanos - by.nanos)
    }
}
