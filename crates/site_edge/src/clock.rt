//! The clock of the store.
ghost use Rattle.std.specs.Prelude.{◌≡◌, ◌<◌, ◌+◌, ◌^◌, ◌∷◌, ◌++◌, [], ℕ, List, Bool, true, length};
ghost use Rattle.site_edge.specs.Clocks.{IsMoment};

/// The last moment: 9999-12-31T23:59:59Z.
pub const LAST_MOMENT: u64 = 253_402_300_799;

/// A clock answers moments: whole seconds since 1970-01-01T00:00:00Z, up to the year 9999.
pub trait Clock {
    /// Whether it tells the moments that it gave.
    ghost tells: { Self → Bool };

    /// The moments given so far, the oldest first.
    ghost given: { Self → List ℕ };

    /// The next moment. Telling lasts while fewer than 2^64 - 1 moments were given.
    fn now(&mut self) -> u64
        ensures moment { IsMoment result }
        ensures told_before { tells self.new ≡ true → tells self.old ≡ true }
        ensures lasts { tells self.old ≡ true → length (given self.old) + 1 < 2 ^ 64
            → tells self.new ≡ true }
        ensures given { tells self.new ≡ true → given self.new ≡ given self.old ++ result ∷ [] };
}
