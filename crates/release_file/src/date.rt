//! Dates, read from texts. It touches nothing and takes no memory.

ghost use Rattle.std.specs.Prelude.{◌≡◌, ◌≢◌, ℕ, ◌<◌, ◌≤◌, ◌^◌, ◌∷◌, [], pos, slice_get, take, All, MatchOption, IfSome, IfNone};
ghost use Rattle.std.specs.Int.{IsInRange};
ghost use Rattle.jiff.specs.Words.{IsWithin};
ghost use Rattle.release_file.specs.DateText.{parts_at, is_weekday, number_of, month_of, is_zone, day_of, day_of_texts, clock_of, clock_of_texts, clock_of_parts, moment_of, moment_of_parts, date_of_text};

use acq_base::read_digits;
use jiff::civil::Date;

/// The moment that a date text names, in seconds since 1970-01-01 00:00:00 UTC, if it is one (RFC 5322, section 3.3).
#[tactic(auto, unfolding(crate::specs::DateText::date_of_text))]
pub(crate) fn read_date(text: &[u8]) -> Option<i64>
    ensures { result ≡ date_of_text text.now }
{
    let (first, rest) = cut_at(b' ', text)?;
    if is_weekday_name(first) {
        moment(rest)
    } else {
        moment(text)
    }
}

/// The moment that a date text without a day of the week names.
fn moment(text: &[u8]) -> Option<i64>
    ensures { result ≡ moment_of_parts (parts_at 32 text.now) }
{
    let (day, rest) = cut_at(b' ', text)?;
    let (month, rest) = cut_at(b' ', rest)?;
    let (year, rest) = cut_at(b' ', rest)?;
    let (time, zone) = cut_at(b' ', rest)?;
    if !is_utc(zone) {
        return None;
    }
    combined(day_start(day, month, year), clock(time))
}

/// The seconds since 1970-01-01 00:00:00 of a time of a day.
#[tactic(auto, unfolding(crate::specs::DateText::moment_of))]
fn combined(day: Option<i64>, clock: Option<u32>) -> Option<i64>
    requires { IfSome day (λ seconds. IsWithin 400_000_000_000 seconds) }
    ensures { result ≡ moment_of day clock }
{
    let day = day?;
    let clock = clock?;
    Some(day + i64::from(clock))
}

/// The beginning of the day that these texts write, in seconds since 1970-01-01 00:00:00.
#[tactic(auto, unfolding(crate::specs::DateText::day_of_texts))]
fn day_start(day: &[u8], month: &[u8], year: &[u8]) -> Option<i64>
    ensures value { result ≡ day_of_texts day.now month.now year.now }
    ensures bound { IfSome result (IsWithin 400_000_000_000) }
{
    let day = number(day, 1, 2)?;
    let month = month_number(month)?;
    let year = number(year, 4, 4)?;
    start_of(year, month, day)
}

/// The beginning of a day of the calendar in seconds since 1970-01-01 00:00:00, if the day is there.
fn start_of(year: u16, month: u16, day: u16) -> Option<i64>
    requires year { year < 10000 }
    requires month { IsInRange 1 12 month }
    requires day { day < 100 }
    ensures value { result ≡ day_of year month day }
    ensures bound { IfSome result (IsWithin 400_000_000_000) }
{
    match Date::new(year as i16, month as i8, day as i8) {
        Ok(date) => Some(date.duration_since(Date::constant(1970, 1, 1)).as_secs()),
        Err(_) => None,
    }
}

/// The seconds since midnight that a text `hh:mm:ss` writes.
fn clock(text: &[u8]) -> Option<u32>
    ensures { result ≡ clock_of_parts (parts_at 58 text.now) }
{
    let (hour, rest) = cut_at(b':', text)?;
    let (minute, second) = cut_at(b':', rest)?;
    clock_seconds(hour, minute, second)
}

/// The seconds since midnight that these texts write.
#[tactic(auto, unfolding(crate::specs::DateText::clock_of_texts))]
fn clock_seconds(hour: &[u8], minute: &[u8], second: &[u8]) -> Option<u32>
    ensures { result ≡ clock_of_texts hour.now minute.now second.now }
{
    let hour = number(hour, 2, 2)?;
    let minute = number(minute, 2, 2)?;
    let second = number(second, 2, 2)?;
    seconds_since_midnight(hour, minute, second)
}

/// The seconds since midnight of a time of day, if a clock shows it.
#[tactic(auto, unfolding(crate::specs::DateText::clock_of))]
fn seconds_since_midnight(hour: u16, minute: u16, second: u16) -> Option<u32>
    ensures { result ≡ clock_of hour minute second }
{
    if hour > 23 || minute > 59 || second > 59 {
        return None;
    }
    Some(u32::from(hour) * 3600 + u32::from(minute) * 60 + u32::from(second))
}

/// The number that decimal digits write, from `least` to `most` of them.
#[tactic(auto, unfolding(crate::specs::DateText::number_of))]
fn number(text: &[u8], least: usize, most: usize) -> Option<u16>
    requires least { 1 ≤ least }
    requires most { most ≤ 4 }
    ensures value { result ≡ number_of least most text.now }
    ensures bound { IfSome result (λ n. n < 10 ^ most) }
{
    if text.len() < least || text.len() > most {
        return None;
    }
    u16::try_from(read_digits(text)?).ok()
}

/// The number of the month with this name, from 1.
#[tactic(auto, unfolding(crate::specs::DateText::month_of))]
fn month_number(text: &[u8]) -> Option<u16>
    ensures value { result ≡ month_of text.now }
    ensures bound { IfSome result (IsInRange 1 12) }
{
    match text {
        b"Jan" => Some(1),
        b"Feb" => Some(2),
        b"Mar" => Some(3),
        b"Apr" => Some(4),
        b"May" => Some(5),
        b"Jun" => Some(6),
        b"Jul" => Some(7),
        b"Aug" => Some(8),
        b"Sep" => Some(9),
        b"Oct" => Some(10),
        b"Nov" => Some(11),
        b"Dec" => Some(12),
        _ => None,
    }
}

/// Whether the text names the one zone that is taken, Universal Time.
#[tactic(auto, unfolding(crate::specs::DateText::is_zone))]
fn is_utc(text: &[u8]) -> bool
    ensures { result ≡ is_zone text.now }
{
    matches!(text, b"UTC" | b"GMT" | b"Z" | b"+0000" | b"-0000")
}

/// Whether the text is three letters and a comma.
fn is_weekday_name(text: &[u8]) -> bool
    ensures { result ≡ is_weekday text.now }
{
    match text {
        [a, b, c, d] => {
            a.is_ascii_alphabetic()
                && b.is_ascii_alphabetic()
                && c.is_ascii_alphabetic()
                && *d == b','
        }
        _ => false,
    }
}

/// What stands before and after the first such byte, where there is one.
#[tactic(auto, using(crate::proofs::Parts::parts))]
fn cut_at(byte: u8, text: &[u8]) -> Option<(&[u8], &[u8])>
    ensures { MatchOption result (parts_at byte text.now ≡ text.now ∷ [])
        (λ cut. parts_at byte text.now ≡ cut.0.now ∷ parts_at byte cut.1.now) }
{
    let index = place_of(byte, text)?;
    let (before, rest) = text.split_at(index);
    let (_, after) = rest.split_at(1);
    Some((before, after))
}

/// The place of the first such byte.
fn place_of(byte: u8, text: &[u8]) -> Option<usize>
    ensures none { IfNone result (All (λ b. b ≢ byte) text.now) }
    ensures found { IfSome result (λ index. slice_get text.now index ≡ Some byte) }
    ensures first { IfSome result (λ index. All (λ b. b ≢ byte) (take index text.now)) }
{
    for (index, b) in text.iter().enumerate() {
        if *b == byte {
            return Some(index);
        }
    }
    None
}
