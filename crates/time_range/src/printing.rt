//! Printing the one canonical text of a timestamp or a range.
ghost use Rattle.std.specs.Prelude.{◌≡◌, ◌++◌, length, OnOk, OnErr};
ghost use Rattle.time_range.specs.Spelling.{numeral, ts_text, left_text, right_text, stamp_text, middle_text, range_text, SpellsTs, SpellsRange};
ghost use Rattle.time_range.specs.Printing.{canonical_ts_text, canonical_range_text, Extends};

use crate::fault::Memory;
use crate::ranges::TimeRange;
use crate::spelling::{Bracket, Middle, RangeParts, TsParts};
use crate::stamp::Ts;

/// Appends the text of a timestamp. After an error `out` is as it was.
pub fn print_ts(t: Ts, out: &mut Vec<u8>) -> Result<(), Memory>
    ensures ok { OnOk result (out.new.items ≡ out.old.items ++ canonical_ts_text t) }
    ensures err { OnErr result (out.new.items ≡ out.old.items) }
    ensures spells { SpellsTs (canonical_ts_text t) t }
{
    let kept = out.len();
    let printed = TsParts::of(t).append(out);
    if printed.is_err() {
        out.truncate(kept);
    }
    printed
}

/// Appends the text of a range. After an error `out` is as it was.
pub fn print_range(r: &TimeRange, out: &mut Vec<u8>) -> Result<(), Memory>
    ensures ok { OnOk result (out.new.items ≡ out.old.items ++ canonical_range_text r.now) }
    ensures err { OnErr result (out.new.items ≡ out.old.items) }
    ensures spells { SpellsRange (canonical_range_text r.now) r.now }
{
    let kept = out.len();
    let printed = RangeParts::of(r).append(out);
    if printed.is_err() {
        out.truncate(kept);
    }
    printed
}

#[tactic(auto, using(crate::proofs::Appending::number_steps))]
fn append_number(out: &mut Vec<u8>, number: u64) -> Result<(), Memory>
    ensures ok { OnOk result (out.new.items ≡ out.old.items ++ numeral number) }
    ensures err { OnErr result (Extends out.old.items out.new.items) }
{
    if number >= 10 {
        append_number(out, number / 10)?;
    }
    out.push(b'0' + (number % 10) as u8)?;
    Ok(())
}

fn append_stamp(out: &mut Vec<u8>, stamp: Option<TsParts>) -> Result<(), Memory>
    ensures ok { OnOk result (out.new.items ≡ out.old.items ++ stamp_text stamp) }
    ensures err { OnErr result (Extends out.old.items out.new.items) }
{
    match stamp {
        Some(parts) => parts.append(out),
        None => Ok(()),
    }
}

fn append_left(out: &mut Vec<u8>, bracket: Option<Bracket>) -> Result<(), Memory>
    ensures ok { OnOk result (out.new.items ≡ out.old.items ++ left_text bracket) }
    ensures err { OnErr result (Extends out.old.items out.new.items) }
{
    match bracket {
        Some(Bracket::Square) => out.push(b'[')?,
        Some(Bracket::Round) => out.push(b'(')?,
        None => {}
    }
    Ok(())
}

fn append_right(out: &mut Vec<u8>, bracket: Option<Bracket>) -> Result<(), Memory>
    ensures ok { OnOk result (out.new.items ≡ out.old.items ++ right_text bracket) }
    ensures err { OnErr result (Extends out.old.items out.new.items) }
{
    match bracket {
        Some(Bracket::Square) => out.push(b']')?,
        Some(Bracket::Round) => out.push(b')')?,
        None => {}
    }
    Ok(())
}

impl TsParts {
    #[tactic(auto, using(crate::proofs::Appending::extends_more))]
    fn append(self, out: &mut Vec<u8>) -> Result<(), Memory>
        ensures ok { OnOk result (out.new.items ≡ out.old.items ++ ts_text self) }
        ensures err { OnErr result (Extends out.old.items out.new.items) }
    {
        if self.negative {
            out.push(b'-')?;
        }
        append_number(out, self.seconds)?;
        out.push(b':')?;
        append_number(out, u64::from(self.nanos))?;
        Ok(())
    }
}

impl Middle {
    #[tactic(auto, using(crate::proofs::Appending::extends_more))]
    fn append(self, out: &mut Vec<u8>) -> Result<(), Memory>
        ensures ok { OnOk result (out.new.items ≡ out.old.items ++ middle_text self) }
        ensures err { OnErr result (Extends out.old.items out.new.items) }
    {
        match self {
            Middle::Empty => Ok(()),
            Middle::Single(at) => at.append(out),
            Middle::Split(first, second) => {
                append_stamp(out, first)?;
                out.push(b'_')?;
                append_stamp(out, second)?;
                Ok(())
            }
        }
    }
}

impl RangeParts {
    fn append(self, out: &mut Vec<u8>) -> Result<(), Memory>
        ensures ok { OnOk result (out.new.items ≡ out.old.items ++ range_text self) }
        ensures err { OnErr result (Extends out.old.items out.new.items) }
    {
        append_left(out, self.left)?;
        self.middle.append(out)?;
        append_right(out, self.right)?;
        Ok(())
    }
}
