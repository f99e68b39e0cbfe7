//! Moments in text.
ghost use Rattle.std.specs.Prelude.{◌≡◌, ◌≤◌, ◌<◌, pos, IfOk};
ghost use Rattle.jiff.specs.Words.{epoch_day, IsBetween};
ghost use Rattle.media_rows.specs.Moments.{last_moment, civil_date, clock_text, date_text, moment_text, two_digits};

use disk_trait::{Memory, Text};
use jiff::ToSpan;
use jiff::civil::{Date, date};
use std::alloc::Global;

/// Seconds of a day.
const DAY: u64 = 86_400;

/// The last day, 9999-12-31, by the days since 1970-01-01.
const LAST_DAY: i32 = 2_932_896;

/// The text `YYYY-MM-DDTHH:MM:SSZ` of a moment, in whole seconds since 1970-01-01T00:00:00Z.
pub fn moment_text(alloc: Global, moment: u64) -> Result<Text, Memory>
    requires { moment ≤ last_moment }
    ensures { IfOk result (λ text. text ≡ moment_text moment) }
{
    let mut text = day_text(alloc, (moment / DAY) as i32)?;
    text.append(&clock_bytes((moment % DAY) as u32))?;
    Ok(text)
}

/// The text of the civil date so many days after 1970-01-01.
fn day_text(alloc: Global, day: i32) -> Result<Text, Memory>
    requires { IsBetween (pos 0) LAST_DAY day }
    ensures { IfOk result (λ text. (n : _) → day ≡ pos n → text ≡ date_text (civil_date n)) }
{
    let printed = date_of(day).to_string(alloc)?;
    Text::from_bytes(alloc, printed.as_bytes())
}

/// The civil date so many days after 1970-01-01.
fn date_of(day: i32) -> Date
    requires { IsBetween (pos 0) LAST_DAY day }
    ensures { epoch_day result ≡ day }
{
    let start = date(1970, 1, 1);
    match start.checked_add((day as i64).days()) {
        Ok(later) => later,
        Err(_) => start,
    }
}

/// The time of a day, behind its date.
#[tactic(auto, unfolding(crate::specs::Moments::clock_text))]
fn clock_bytes(seconds: u32) -> [u8; 10]
    requires { seconds < DAY }
    ensures { result ≡ clock_text seconds }
{
    let [h1, h2] = two_digits(seconds / 3600);
    let [m1, m2] = two_digits(seconds / 60 % 60);
    let [s1, s2] = two_digits(seconds % 60);
    [b'T', h1, h2, b':', m1, m2, b':', s1, s2, b'Z']
}

/// A number below 100 in two digits.
fn two_digits(number: u32) -> [u8; 2]
    requires { number < 100 }
    ensures { result ≡ two_digits number }
{
    [b'0' + (number / 10) as u8, b'0' + (number % 10) as u8]
}
