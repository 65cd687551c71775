// What a server holds, a part at a time. Nothing is judged: the form may be broken, and a place that does not exist reads as none.
ghost use Rattle.std.specs.Prelude.{◌≡◌};
ghost use Rattle.door.specs.Readings.{counter_in, entry_in, result_in, result_at, no_reading};

use crate::{LogEntry, Reading};
use counters::{Counters, kept_of};
use rules::cluster::{KEYS, NUMBERS, PIECES};
use server::{Log, Record};

impl Reading {
    // There is no such place.
    pub fn none() -> Reading
        ensures { result ≡ no_reading }
    {
        Reading {
            some: 0,
            value: 0,
            kept: 0,
        }
    }
}

// The counter of a key, kept where it is full.
pub fn counter(c: &Counters, key: u32) -> Reading
    ensures { result ≡ counter_in c.now key }
{
    if key < KEYS {
        let x = c.list[key as usize];
        return Reading {
            some: 1,
            value: x.value,
            kept: kept_of(x),
        };
    }
    Reading::none()
}

// The number that ran at a place of the log, the first at 0.
pub fn log_entry(log: &Log, place: u32) -> LogEntry
    ensures { result ≡ entry_in log.now place }
{
    let there = (place < log.count) & (place < NUMBERS);
    if there {
        return LogEntry {
            some: 1,
            number: log.list[place as usize],
        };
    }
    LogEntry { some: 0, number: 0 }
}

// The result at a place of a record.
fn result_in(v: &Record, place: u32) -> Reading
    ensures { result ≡ result_in v.now place }
{
    let there = (v.ran != 0) & (place < v.values.count) & (place < PIECES as u32);
    if there {
        let x = v.values.list[place as usize];
        return Reading {
            some: 1,
            value: x.value,
            kept: x.kept,
        };
    }
    Reading::none()
}

// The result of the number `t` at a place, in the order of its pieces on this server's shard; `v` is the record at its place.
pub fn result(v: &Record, t: u32, place: u32) -> Reading
    ensures { result ≡ result_at v.now t place }
{
    if t < NUMBERS {
        result_in(v, place)
    } else {
        Reading::none()
    }
}
