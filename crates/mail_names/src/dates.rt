// Moments as messages write them.
ghost use Rattle.jiff_core.specs.Calendar.{weekday_number};
ghost use Rattle.std.specs.Prelude.{◌≡◌, ◌<◌, ◌≤◌, pos, IfOk};
ghost use Rattle.std.specs.Int.{IsInRange};
ghost use Rattle.std.specs.List.{flat_map};
ghost use Rattle.jiff_core.specs.Date.{epoch_day};
ghost use Rattle.jiff_core.specs.Weekday.{monday_zero};
ghost use Rattle.mail_names.specs.Dates.{year_of, month_of, day_of, date_text, month_name, two_digits, four_digits, weekday_name};

use crate::{Bytes, NoMemory};
use jiff::civil::{Date, Weekday};
use std::alloc::Global;

/// The last moment: 9999-12-31T23:59:59Z, in seconds since 1970-01-01T00:00:00Z.
pub const LAST_MOMENT: u64 = 253_402_300_799;

// The date that lies this many days after 1970-01-01.
fn date_of(day: u64) -> Date
    requires { day ≤ 2932896 }
    ensures { epoch_day result ≡ pos day }
{
    Date::from_plain(jiff_core::civil::Date::from_unix_epoch_day(day as i64).unwrap())
}

#[derive(Clone, Copy)]
struct CalendarDay {
    weekday: Weekday,
    day: u64,
    month: u64,
    year: u64,
}

// The day with this number, 0 for 1970-01-01, in the calendar.
fn calendar_day(number: u64) -> CalendarDay
    requires { number ≤ 2932896 }
    ensures weekday { monday_zero result.weekday ≡ weekday_number (pos number) }
    ensures day { result.day ≡ day_of number }
    ensures month { result.month ≡ month_of number }
    ensures year { result.year ≡ year_of number }
    ensures day_range { result.day < 100 }
    ensures month_range { IsInRange 1 12 result.month }
    ensures year_range { result.year < 10000 }
{
    let date = date_of(number);
    CalendarDay {
        weekday: date.weekday(),
        day: u64::from(date.day().unsigned_abs()),
        month: u64::from(date.month().unsigned_abs()),
        year: u64::from(date.year().unsigned_abs()),
    }
}

fn weekday_name(weekday: Weekday) -> &'static [u8]
    ensures { result.now ≡ weekday_name (monday_zero weekday) }
{
    match weekday {
        Weekday::Monday => b"Mon",
        Weekday::Tuesday => b"Tue",
        Weekday::Wednesday => b"Wed",
        Weekday::Thursday => b"Thu",
        Weekday::Friday => b"Fri",
        Weekday::Saturday => b"Sat",
        Weekday::Sunday => b"Sun",
    }
}

fn month_name(month: u64) -> &'static [u8]
    requires { IsInRange 1 12 month }
    ensures { result.now ≡ month_name month }
{
    match month {
        1 => b"Jan",
        2 => b"Feb",
        3 => b"Mar",
        4 => b"Apr",
        5 => b"May",
        6 => b"Jun",
        7 => b"Jul",
        8 => b"Aug",
        9 => b"Sep",
        10 => b"Oct",
        11 => b"Nov",
        _ => b"Dec",
    }
}

fn two_digits(number: u64) -> [u8; 2]
    requires { number < 100 }
    ensures { result ≡ two_digits number }
{
    [b'0' + (number / 10) as u8, b'0' + (number % 10) as u8]
}

fn four_digits(number: u64) -> [u8; 4]
    requires { number < 10000 }
    ensures { result ≡ four_digits number }
{
    [
        b'0' + (number / 1000) as u8,
        b'0' + (number / 100 % 10) as u8,
        b'0' + (number / 10 % 10) as u8,
        b'0' + (number % 10) as u8,
    ]
}

fn joined(alloc: Global, parts: &[&[u8]]) -> Result<Bytes, NoMemory>
    ensures { IfOk result (λ text. text ≡ flat_map (λ part. part.now) parts.now) }
{
    let mut text = Bytes::new(alloc);
    for part in parts {
        text.add(part)?;
    }
    Ok(text)
}

/// The moment, in seconds since 1970-01-01T00:00:00Z, as `Sun, 01 Mar 2026 00:00:00 +0000`
/// (RFC 5322 section 3.3).
pub fn date_text(alloc: Global, moment: u64) -> Result<Bytes, NoMemory>
    requires { moment ≤ LAST_MOMENT }
    ensures { IfOk result (λ text. text ≡ date_text moment) }
{
    let date = calendar_day(moment / 86_400);
    let second = moment % 86_400;
    joined(
        alloc,
        &[
            weekday_name(date.weekday),
            b", ",
            &two_digits(date.day),
            b" ",
            month_name(date.month),
            b" ",
            &four_digits(date.year),
            b" ",
            &two_digits(second / 3_600),
            b":",
            &two_digits(second / 60 % 60),
            b":",
            &two_digits(second % 60),
            b" +0000",
        ],
    )
}
