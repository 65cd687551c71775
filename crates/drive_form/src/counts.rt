// Whether the servers that answered decide.
ghost use Rattle.std.specs.Prelude.{◌≡◌, ◌<◌};
ghost use Rattle.masks.specs.Bits.{within};
ghost use Rattle.masks.specs.Folds.{all_below};
ghost use Rattle.drive.specs.Due.{servers_of};
ghost use Rattle.drive_form.specs.Parts.{with_shard, pairs, two_from, enough};

use crate::Counted;

// The first server of each shard.
const FIRSTS: u64 = 0b001_001_001_001;

// w and, where shard `k` is touched, its three servers.
fn with_shard(w: u64, shards: u64, k: usize) -> u64
    requires { k < 4 }
    ensures { result ≡ with_shard shards k w }
{
    if !masks::has(shards, k) {
        return w;
    }
    let first = 3 * k;
    masks::insert(masks::insert(masks::insert(w, first), first + 1), first + 2)
}

// The servers of the touched shards.
pub fn servers_of(shards: u64) -> u64
    ensures { result ≡ servers_of shards }
{
    let a = with_shard(0, shards, 0);
    let b = with_shard(a, shards, 1);
    let c = with_shard(b, shards, 2);
    with_shard(c, shards, 3)
}

// At the first server of a shard: two at least of its three are in w.
fn pairs(w: u64) -> u64
    ensures { result ≡ pairs w }
{
    let second = w >> 1;
    let third = w >> 2;
    masks::union(
        masks::union(masks::both(w, second), masks::both(w, third)),
        masks::both(second, third),
    )
}

impl Counted {
    // All servers of the touched shards answered.
    pub fn all_answered(self) -> bool
        ensures { result ≡ within (servers_of self.shards) self.answered }
    {
        masks::within(servers_of(self.shards), self.answered)
    }

    // Two of each touched shard answered.
    pub fn two_in_each(self) -> bool
        ensures { result ≡ all_below (two_from self.shards self.answered) 4 }
    {
        masks::within(
            masks::both(servers_of(self.shards), FIRSTS),
            pairs(self.answered),
        )
    }

    // The answers decide without "move on".
    #[tactic(auto, unfolding(crate::specs::Parts::enough))]
    pub fn decided(self, phase: u32) -> bool
        ensures { result ≡ enough phase self.shards self.answered }
    {
        if phase == 2 {
            self.two_in_each()
        } else {
            self.all_answered()
        }
    }
}
