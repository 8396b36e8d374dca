//! The day of the host.

ghost use Rattle.std.specs.Prelude.{All, IfOk};
ghost use Rattle.command_words.specs.Words.{IsDigit};

use command_words::read_day;
use jiff::tz::{SystemTimeZone, TimeZone, TimeZoneDatabase};
use jiff::{Error, Timestamp};
use std::env::Env;
use std::fs::File;
use std::rt::Files;
use std::time::Clock;

/// A day as YYMMDD.
const FORMAT: &str = "%y%m%d";

/// The host's day, six digits YYMMDD, in the time zone that the variable TZ names, or else `/etc/localtime`. Where neither can be read, the
/// day is that of UTC. It fails if the clock does, or if memory runs out.
pub fn today<R>(rt: &R) -> Result<[u8; 6], Error>
where
    R: Files<File = File> + AllocGlobal + Clock + Env + Clone + Drop,
    ensures { IfOk result (λ day. All IsDigit day) }
{
    let Ok(zone) = SystemTimeZone::read(rt) else {
        return day_in(rt, TimeZone::UTC);
    };
    if let Ok(found) = zone.time_zone(&TimeZoneDatabase::new(rt.alloc())) {
        return day_in(rt, found);
    }
    let zones = TimeZoneDatabase::from_env(rt)?;
    day_in(rt, zone.time_zone(&zones).unwrap_or(TimeZone::UTC))
}

/// The day in a time zone.
fn day_in<R: AllocGlobal + Clock>(rt: &R, zone: TimeZone<'_>) -> Result<[u8; 6], Error>
    ensures { IfOk result (λ day. All IsDigit day) }
{
    let text = Timestamp::now(rt)?
        .to_zoned(zone)
        .strftime(rt.alloc(), FORMAT)?;
    read_day(Some(text.as_str())).ok_or(Error::OutOfMemory)
}
