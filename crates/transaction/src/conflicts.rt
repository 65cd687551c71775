// Which transactions conflict at a shard: each is walked once, to the keys that it has and writes there.
ghost use Rattle.std.specs.Prelude.{◌≡◌};
ghost use Rattle.rules.specs.Keys.{keys_on, clashes};
ghost use Rattle.rules.specs.Conflict.{conflict};

use crate::{put_below, used};
use rules::cluster::KEYS;
use rules::kinds::Kind;
use rules::{Keys, Pieces};

// The keys of a transaction at shard `k`.
pub fn keys_on(ps: Pieces, k: u32) -> Keys
    ensures { result ≡ keys_on ps k }
{
    let n = used(ps.count);
    let mut all: u64 = 0;
    let mut written: u64 = 0;
    for i in 0..n {
        let p = ps.list[i];
        let here = p.shard == k;
        all = put_below(all, KEYS, p.key, here);
        written = put_below(written, KEYS, p.key, here & Kind::from(p.kind).writes());
    }
    Keys {
        all: all,
        written: written,
    }
}

// One has a key that the other writes.
#[tactic(auto, unfolding(rules::specs::Keys::clashes))]
pub fn clashes(a: Keys, b: Keys) -> bool
    ensures { result ≡ clashes a b }
{
    !masks::is_empty(masks::both(a.all, b.written))
        | !masks::is_empty(masks::both(a.written, b.all))
}

// Two transactions' pieces conflict at shard `k`.
pub fn conflict(k: u32, a: Pieces, b: Pieces) -> bool
    ensures { result ≡ conflict k a b }
{
    clashes(keys_on(a, k), keys_on(b, k))
}
