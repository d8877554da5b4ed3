ghost use Rattle.std.specs.Prelude.{ℕ, List, ◌≡◌, ◌↔◌, ◌<◌, ◌≤◌, ◌+◌, ◌*◌, ◌%◌, ◌^◌, unsigned_abs, ◌++◌, ◌⊎◌, ℤ, pos, Some, length, drop, if◌then◌else◌, IsSome, IfSome};
ghost use Rattle.std.specs.Char.{is_ascii_digit};
ghost use Rattle.std.specs.List.{list_all};
ghost use Rattle.atom_values.specs.DateText.{States};
ghost use Rattle.atom_values.specs.Calendar.{year_of, month_of, day_of, day_number};
ghost use Rattle.atom_values.specs.DateFormula.{two_digits, shape_of, has_form, is_date, is_date_time, date_time_millis, is_fraction, fraction_millis, is_offset, offset_length, offset_millis, value_of_parts, value_of};
ghost use Rattle.atom_values.specs.DateText.{digit_at};
ghost use Rattle.atom_values.specs.Stamp.{IsStamp, since_year_zero, date_text, clock_text, fraction_text, printed};

use crate::copies::Copies;
use crate::memory::NoMemory;
use jiff::ToSpan;
use jiff::civil::{self, Date};
use std::alloc::Global;
use std::marker::Model;

/// A timestamp of a feed (RFC 4287 section 3.3). Keeps whole milliseconds since 1970-01-01T00:00:00Z, from
/// 0000-01-01T00:00:00Z to 9999-12-31T23:59:59.999Z.
#[derive(Clone, Copy, Debug, PartialEq, Eq, PartialOrd, Ord, Hash)]
pub struct Stamp {
    millis: i64,
}

impl Model for Stamp {
    ghost use Rattle.std.specs.Prelude.{ℤ};
    ghost use Rattle.atom_values.specs.Stamp.{IsStamp};

    ghost Value = { ℤ };

    ghost view = { λ s. s.millis };

    ghost invariant = { λ s. IsStamp s.millis };

    ghost inverse = { λ z. record { millis = z } };
}

impl Stamp {
    /// The earliest timestamp, 0000-01-01T00:00:00Z, in milliseconds since 1970.
    pub const MIN_MILLIS: i64 = -62_167_219_200_000;

    /// The latest timestamp, 9999-12-31T23:59:59.999Z, in milliseconds since 1970.
    pub const MAX_MILLIS: i64 = 253_402_300_799_999;

    /// The timestamp `millis` milliseconds after the start of 1970. `None` exactly if it is outside the years 0 to
    /// 9999.
    pub fn new(millis: i64) -> Option<Stamp>
        ensures range { IsSome result ↔ IsStamp millis }
        ensures value { IfSome result (λ stamp. stamp ≡ millis) }
    {
        if (Stamp::MIN_MILLIS..=Stamp::MAX_MILLIS).contains(&millis) {
            Some(Stamp { millis })
        } else {
            None
        }
    }

    /// Milliseconds since 1970-01-01T00:00:00Z.
    pub fn millis(&self) -> i64
        ensures value { result ≡ self.now }
        ensures range { IsStamp self.now }
    {
        self.millis
    }

    /// Parses a date text (RFC 3339 section 5.6, with upper-case `T` and `Z`), to the millisecond: the digits of the
    /// fraction after the third are cut, and a leap second is read as the second before it.
    ///
    /// `None` exactly if the text hasn't this form, the calendar hasn't the date, or the timestamp is outside the years
    /// 0 to 9999 in UTC.
    pub fn parse(text: &[u8]) -> Option<Stamp>
        ensures stated { (moment : ℤ) → (result ≡ Some moment) ↔ States text.now moment }
    {
        let (date_time, rest) = text.split_at(text.len().min(19));
        let (fraction, offset) = rest.split_at(rest.len().saturating_sub(offset_length(rest)));
        value_of_parts(date_time, fraction, offset)
    }

    /// Writes the printed form at the front of `into` and returns its length, 20 or 24: the date text of RFC 3339
    /// section 5.6 in UTC, with three fraction digits, or none if the milliseconds are 0. The other bytes stay.
    pub fn print(&self, into: &mut [u8; 24]) -> usize
        ensures length { result ≡ length (printed self.now) }
        ensures text { into.new ≡ printed self.now ++ drop result into.old }
        ensures size { (result ≡ 20) ⊎ (result ≡ 24) }
    {
        let since_year_zero = self.since_year_zero();
        let day = (since_year_zero / 86_400_000) as u32;
        let of_day = (since_year_zero % 86_400_000) as u32;
        into[..10].copy_from_slice(&date_digits(day));
        into[10] = b'T';
        into[11..19].copy_from_slice(&clock_digits(of_day));
        let millis = of_day % 1_000;
        if millis == 0 {
            into[19] = b'Z';
            return 20;
        }
        into[19..23].copy_from_slice(&[
            b'.',
            digit(millis / 100),
            digit(millis / 10),
            digit(millis),
        ]);
        into[23] = b'Z';
        24
    }

    /// Milliseconds since 0000-01-01T00:00:00Z.
    fn since_year_zero(&self) -> u64
        ensures value { result ≡ since_year_zero self.now }
        ensures bound { result < 315_569_520_000_000 }
    {
        (self.millis - Stamp::MIN_MILLIS) as u64
    }
}

impl Copies for Stamp {
    ghost rules = { IsStamp };

    fn copy(&self, _alloc: Global) -> Result<Stamp, NoMemory> {
        Ok(Stamp {
            millis: self.millis,
        })
    }
}

/// The date of a day's number, which is 0 for 1 January of year 0.
fn date_of(day: u32) -> Date
    requires { day < 3_652_425 }
    ensures year { result.year ≡ pos (year_of day) }
    ensures month { result.month ≡ month_of day }
    ensures day { result.day ≡ day_of day }
{
    let first = civil::date(0, 1, 1);
    // The `requires` keeps the sum in jiff's range, so the addition can't fail.
    first.checked_add((day as i64).days()).unwrap()
}

/// The last decimal digit of `n`, as a character.
fn digit(n: u32) -> u8
    ensures { result ≡ 48 + n % 10 }
{
    b'0' + (n % 10) as u8
}

/// The date of a day's number as YYYY-MM-DD.
fn date_digits(day: u32) -> [u8; 10]
    requires { day < 3_652_425 }
    ensures { result ≡ date_text day }
{
    let date = date_of(day);
    let year = date.year() as u32;
    let month = date.month() as u32;
    let day = date.day() as u32;
    [
        digit(year / 1_000),
        digit(year / 100),
        digit(year / 10),
        digit(year),
        b'-',
        digit(month / 10),
        digit(month),
        b'-',
        digit(day / 10),
        digit(day),
    ]
}

/// The time of the day as hh:mm:ss, from the milliseconds since midnight.
fn clock_digits(millis: u32) -> [u8; 8]
    ensures { result ≡ clock_text millis }
{
    let hour = millis / 3_600_000;
    let minute = millis / 60_000 % 60;
    let second = millis / 1_000 % 60;
    [
        digit(hour / 10),
        digit(hour),
        b':',
        digit(minute / 10),
        digit(minute),
        b':',
        digit(second / 10),
        digit(second),
    ]
}

/// A byte's place in a form: `0` for a digit, and else the byte.
fn shape_of(byte: u8) -> u8
    ensures { result ≡ shape_of byte }
{
    if byte.is_ascii_digit() { b'0' } else { byte }
}

/// Whether the text has this form, in which each `0` means any digit.
fn has_form(text: &[u8], form: &[u8]) -> bool
    ensures { result ≡ has_form text.now form.now }
{
    if text.len() != form.len() {
        return false;
    }
    for (i, byte) in text.iter().enumerate() {
        if shape_of(*byte) != form[i] {
            return false;
        }
    }
    true
}

/// The digit at an index, and 0 past the text's end.
fn digit_at(text: &[u8], at: usize) -> u32
    ensures { result ≡ digit_at text.now at }
{
    match text.get(at) {
        Some(byte) => u32::from(byte.saturating_sub(b'0')),
        None => 0,
    }
}

/// The number that the two digits at an index make.
fn two_digits(text: &[u8], at: usize) -> u32
    requires { at < 100 }
    ensures value { result ≡ two_digits text.now at }
    ensures bound { result < 2_288 }
{
    10 * digit_at(text, at) + digit_at(text, at + 1)
}

/// The milliseconds from the start of year 0 to a date. `None` if the calendar hasn't the date.
fn date_millis(year: u32, month: u32, day: u32) -> Option<u64>
    requires year_in { year ≤ 9_999 }
    requires month_in { month ≤ 99 }
    requires day_in { day ≤ 99 }
    ensures value { result ≡
        (if is_date year month day then Some (86_400_000 * day_number year month day) else None) }
    ensures bound { IfSome result (λ millis. millis < 315_569_520_000_000) }
{
    let Ok(date) = Date::new(year as i16, month as i8, day as i8) else {
        return None;
    };
    let seconds = date.duration_since(civil::date(0, 1, 1)).as_secs();
    Some(1_000 * seconds as u64)
}

/// The milliseconds from the start of year 0 to a date and time, YYYY-MM-DDThh:mm:ss. `None` for any other text.
fn date_time_millis(text: &[u8]) -> Option<u64>
    ensures value { result ≡
        (if is_date_time text.now then Some (date_time_millis text.now) else None) }
    ensures bound { IfSome result (λ millis. millis < 315_569_620_000_000) }
{
    if !has_form(text, b"0000-00-00T00:00:00") {
        return None;
    }
    let year = 100 * two_digits(text, 0) + two_digits(text, 2);
    let date = date_millis(year, two_digits(text, 5), two_digits(text, 8))?;
    let hour = two_digits(text, 11);
    let minute = two_digits(text, 14);
    let second = two_digits(text, 17);
    if hour > 23 || minute > 59 || second > 60 {
        return None;
    }
    // A leap second counts as the second before it.
    Some(date + u64::from(3_600_000 * hour + 60_000 * minute + 1_000 * second.min(59)))
}

/// Whether each byte is a digit.
fn is_digits(text: &[u8]) -> bool
    ensures { result ≡ list_all is_ascii_digit text.now }
{
    text.iter().all(|byte| byte.is_ascii_digit())
}

/// Whether the text is empty, or a point and one or more digits.
fn is_fraction(text: &[u8]) -> bool
    ensures { result ≡ is_fraction text.now }
{
    match text.split_first() {
        Some((point, digits)) => *point == b'.' && !digits.is_empty() && is_digits(digits),
        None => true,
    }
}

/// The milliseconds of a fraction: the value of its first three digits, where a missing digit is 0.
fn fraction_millis(text: &[u8]) -> u64
    ensures value { result ≡ fraction_millis text.now }
    ensures bound { result < 30_000 }
{
    u64::from(100 * digit_at(text, 1) + 10 * digit_at(text, 2) + digit_at(text, 3))
}

/// Whether the text is `Z`, or a sign, hours to 23 and minutes to 59.
fn is_offset(text: &[u8]) -> bool
    ensures { result ≡ is_offset text.now }
{
    text == b"Z".as_slice()
        || ((has_form(text, b"+00:00") || has_form(text, b"-00:00"))
            && two_digits(text, 1) <= 23
            && two_digits(text, 4) <= 59)
}

/// The length of the UTC offset at the end of a date text: 1 for `Z`, and else 6.
fn offset_length(rest: &[u8]) -> usize
    ensures { result ≡ offset_length rest.now }
{
    match rest.last() {
        Some(b'Z') => 1,
        _ => 6,
    }
}

/// The milliseconds that a UTC offset's clock is ahead of UTC.
fn offset_millis(text: &[u8]) -> i64
    ensures value { result ≡ offset_millis text.now }
    ensures bound { unsigned_abs result < 2 ^ 40 }
{
    let size = 60_000 * i64::from(60 * two_digits(text, 1) + two_digits(text, 4));
    if text.starts_with(b"-") { -size } else { size }
}

/// The timestamp of a date text, by its three parts. `None` if a part hasn't its form, the calendar hasn't the date, or
/// the timestamp is out of range.
fn value_of_parts(date_time: &[u8], fraction: &[u8], offset: &[u8]) -> Option<Stamp>
    ensures { result ≡ value_of_parts date_time.now fraction.now offset.now }
{
    let local = date_time_millis(date_time)?;
    if !is_fraction(fraction) || !is_offset(offset) {
        return None;
    }
    let millis = (local + fraction_millis(fraction)) as i64;
    Stamp::new(millis + Stamp::MIN_MILLIS - offset_millis(offset))
}

/// A law without code: the printed form of every timestamp is a date text that states it, so `Stamp::parse` reads it
/// back.
pub fn printed_is_read()
    ensures { (z : ℤ) → IsStamp z → States (printed z) z }
{}
