// What is there at first.
ghost use Rattle.std.specs.Prelude.{◌≡◌, replicate};
ghost use Rattle.counters.specs.Effects.{no_counters};
ghost use Rattle.server.specs.Held.{fresh_record};

use counters::Counters;
use server::{Log, Record};

// The record of a number of which nothing is held.
pub fn fresh_record() -> Record
    ensures { result ≡ fresh_record }
{
    Record::default()
}

// All counters at 0, and none full.
pub fn no_counters() -> Counters
    ensures { result ≡ no_counters }
{
    Counters::default()
}

// No number has run.
pub fn no_log() -> Log
    ensures { result ≡ record { list = replicate 64 0; count = 0 } }
{
    Log {
        list: [0; 64],
        count: 0,
    }
}
