// The arrival words of the counted answers: whether each is there, whether they are equal within each shard, and their union.
ghost use Rattle.std.specs.Prelude.{◌≡◌, ◌&&◌, eqb};
ghost use Rattle.rules.specs.Flags.{there, implies};
ghost use Rattle.drive_decide.specs.Turns.{said, same, in_shard, in_all, words_of};

use crate::{InShard, InShards};
use drive::{Answer, Drive};
use drive_form::answers::{has_word, word_of};
use rules::Set;

// The answer has a word, if it is counted.
fn said(a: &Answer) -> bool
    ensures { result ≡ said a.now }
{
    (a.counted == 0) | has_word(a)
}

// Two words are equal, if both are counted.
fn agree(a: &Answer, b: &Answer) -> bool
    ensures { result ≡ same a.now b.now }
{
    (a.counted == 0) | (b.counted == 0) | (a.arrival.word == b.arrival.word)
}

// What the three answers of a shard say. Where none is counted it is nothing.
pub fn in_shard(a: &Answer, b: &Answer, c: &Answer) -> InShard
    ensures { result ≡ in_shard a.now b.now c.now }
{
    if (a.counted == 0) & (b.counted == 0) & (c.counted == 0) {
        return InShard {
            union: 0,
            equal: true,
        };
    }
    InShard {
        union: word_of(a) | word_of(b) | word_of(c),
        equal: said(a) & said(b) & said(c) & (agree(a, b) & agree(a, c) & agree(b, c)),
    }
}

// What the four shards say.
pub fn in_all(k0: InShard, k1: InShard, k2: InShard, k3: InShard) -> InShards
    ensures { result ≡ in_all k0 k1 k2 k3 }
{
    InShards {
        union: Set {
            w0: k0.union,
            w1: k1.union,
            w2: k2.union,
            w3: k3.union,
        },
        equal: k0.equal & k1.equal & k2.equal & k3.equal,
    }
}

// What the words of a drive say.
pub fn of_drive(d: &Drive) -> InShards
    ensures { result ≡ words_of d.now }
{
    let a = &d.answers;
    in_all(
        in_shard(&a[0], &a[1], &a[2]),
        in_shard(&a[3], &a[4], &a[5]),
        in_shard(&a[6], &a[7], &a[8]),
        in_shard(&a[9], &a[10], &a[11]),
    )
}
