// The place of the record that a step reads and stores, and the records that came earlier.
ghost use Rattle.std.specs.Prelude.{◌≡◌, ◌&&◌, ◌<◌};
ghost use Rattle.rules.specs.Flags.{there};
ghost use Rattle.rules.specs.Keys.{keys_on, clashes};
ghost use Rattle.server_step.specs.OneStore.{place_of};

use rules::Keys;
use rules::cluster::bad_number;
use server::Record;
use transaction::conflicts::{clashes, keys_on};

// The place of the record of `t`, or any where `t` is no number.
pub fn place_of(t: u32) -> usize
    ensures value { result ≡ place_of t }
    ensures below { result < 64 }
{
    if bad_number(t) { 0 } else { t as usize }
}

// A number with this record has arrived here, and conflicts with these keys at shard `k`.
pub fn came_earlier(keys: Keys, k: u32, v: &Record) -> bool
    ensures { result ≡ (there v.now.arrival.some && clashes keys (keys_on v.now.pieces k)) }
{
    v.arrival.some != 0 && clashes(keys, keys_on(v.pieces, k))
}
