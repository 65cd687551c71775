// What a committed set names, and what of it is wanted.
ghost use Rattle.std.specs.Prelude.{◌≡◌};
ghost use Rattle.server_run.specs.Gathered.{named, set_without};

use messages::blanks::no_set;
use rules::{MaybeSet, Set};

// The set that is committed, or nothing.
pub fn named(c: &MaybeSet) -> Set
    ensures { result ≡ named c.now }
{
    if c.some != 0 { c.set } else { no_set() }
}

// What is in `v` and not in `w`, shard by shard.
pub fn set_without(v: Set, w: u64) -> Set
    ensures { result ≡ set_without v w }
{
    Set {
        w0: masks::without(v.w0, w),
        w1: masks::without(v.w1, w),
        w2: masks::without(v.w2, w),
        w3: masks::without(v.w3, w),
    }
}
