// Dependency sets, a word for each shard, and rule 3.
ghost use Rattle.std.specs.Prelude.{◌≡◌};
ghost use Rattle.rules.specs.Sets.{word, members, union_set, same_set, bad_word, bad_set};

use crate::Set;

// The word of shard `k`; of a `k` above 3 it is the last.
#[tactic(auto, unfolding(crate::specs::Sets::word))]
pub fn word(v: Set, k: u32) -> u64
    ensures { result ≡ word v k }
{
    match k {
        0 => v.w0,
        1 => v.w1,
        2 => v.w2,
        _ => v.w3,
    }
}

#[tactic(auto, unfolding(crate::specs::Sets::same_set))]
pub fn same_set(a: Set, b: Set) -> bool
    ensures { result ≡ same_set a b }
{
    a == b
}

// What is in a or in b, shard by shard.
#[tactic(auto, unfolding(crate::specs::Sets::union_set))]
pub fn union_set(a: Set, b: Set) -> Set
    ensures { result ≡ union_set a b }
{
    Set {
        w0: masks::union(a.w0, b.w0),
        w1: masks::union(a.w1, b.w1),
        w2: masks::union(a.w2, b.w2),
        w3: masks::union(a.w3, b.w3),
    }
}

// All numbers of a set.
#[tactic(auto, unfolding(crate::specs::Sets::members, masks::specs::Folds::union_of, crate::specs::Sets::word, masks::specs::Bits::union))]
pub fn members(v: Set) -> u64
    ensures { result ≡ members v }
{
    masks::union(masks::union(masks::union(v.w0, v.w1), v.w2), v.w3)
}

// The word `w`, at shard `k`, of the number `t` that touches the shards in `touched` breaks rule 3.
#[tactic(auto, unfolding(crate::specs::Sets::bad_word))]
pub fn bad_word(t: u32, touched: u64, k: u32, w: u64) -> bool
    ensures { result ≡ bad_word t touched k w }
{
    masks::has(w, t as usize) | (!masks::has(touched, k as usize) & !masks::is_empty(w))
}

// A set of the number `t` breaks rule 3.
#[tactic(auto, unfolding(crate::specs::Sets::bad_set, crate::specs::Sets::bad_word_at, crate::specs::Sets::word, masks::specs::Folds::any_below))]
pub fn bad_set(t: u32, touched: u64, v: Set) -> bool
    ensures { result ≡ bad_set t touched v }
{
    bad_word(t, touched, 0, v.w0)
        | bad_word(t, touched, 1, v.w1)
        | bad_word(t, touched, 2, v.w2)
        | bad_word(t, touched, 3, v.w3)
}
