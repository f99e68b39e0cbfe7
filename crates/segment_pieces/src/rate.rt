//! Rates of flows.
ghost use Rattle.std.specs.Prelude.{IsTrue};
ghost use Rattle.segment_pieces.specs.Fractions.{is_rate};

/// How many samples a second a flow has, as a fraction.
#[derive(Clone, Copy, Debug, PartialEq, Eq)]
pub struct Rate {
    pub numerator: u64,
    pub denominator: u64,
    /// Both numbers are from 1 to 1,000,000,000.
    pub ghost in_range: { IsTrue (is_rate numerator denominator) },
}
