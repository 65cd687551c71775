// What the counted answers of a drive say, and what each phase decides by them.
#![tactic(auto)]

ghost use Rattle.std.specs.Prelude.{◌≡◌};
ghost use Rattle.drive.specs.Decide.{all_answered};
ghost use Rattle.drive_decide.specs.Turns.{turned, to, to_phase1, turn0, turn1, turn_of};

use drive::{Answer, Drive};
use rules::{MaybeSet, Set};

pub mod votes; // votes.rt: the highest accepted ballot
pub mod words; // words.rt: the arrival words, whether they are equal, and their union

// The phase that a decision goes to, with its set or none.
#[derive(Clone, Copy)]
pub struct Turn {
    pub phase: u32,
    pub chosen: MaybeSet,
}

impl Turn {
    // To `phase` with the set `v`.
    pub fn to(phase: u32, v: Set) -> Turn
        ensures { result ≡ to phase v }
    {
        Turn {
            phase,
            chosen: MaybeSet { some: 1, set: v },
        }
    }

    // To phase 1, which has no set.
    fn to_phase1() -> Turn
        ensures { result ≡ to_phase1 }
    {
        Turn {
            phase: 1,
            chosen: MaybeSet::default(),
        }
    }

    // The drive begins the phase that was decided, with no answer counted.
    pub fn begin(self, d: &mut Drive)
        ensures { d.new ≡ turned d.old self }
    {
        d.phase = self.phase;
        d.answers = [Answer::default(); 12];
        d.chosen = self.chosen;
    }
}

// What the words of one shard say: their union, and whether every counted answer has one and they are equal.
#[derive(Clone, Copy)]
pub struct InShard {
    pub union: u64,
    pub equal: bool,
}

// The same of all shards, with a word for each.
#[derive(Clone, Copy)]
pub struct InShards {
    pub union: Set,
    pub equal: bool,
}

// Phase 0: the accepted set of the highest ballot where one is held, else the equal words, go to phase 2; else phase 1.
#[tactic(auto, unfolding(crate::specs::Turns::turn0))]
pub fn decide0(vote: Option<Set>, words: InShards) -> Turn
    ensures { result ≡ turn0 vote words.equal words.union }
{
    match vote {
        Some(v) => Turn::to(2, v),
        None if words.equal => Turn::to(2, words.union),
        None => Turn::to_phase1(),
    }
}

// Phase 1: the union goes to phase 3 at the first ballot with all answered and equal words, else to phase 2.
#[tactic(auto, unfolding(crate::specs::Turns::turn1))]
pub fn decide1(first: bool, all: bool, words: InShards) -> Turn
    ensures { result ≡ turn1 first all words.equal words.union }
{
    let fast = first & all & words.equal;
    if fast {
        Turn::to(3, words.union)
    } else {
        Turn::to(2, words.union)
    }
}

// What the drive decides, where `all` says that all servers answered.
#[tactic(auto, unfolding(crate::specs::Turns::turn_of))]
pub fn decide(d: &Drive, all: bool) -> Turn
    requires { all ≡ all_answered d.now }
    ensures { result ≡ turn_of d.now }
{
    match d.phase {
        0 => decide0(votes::best(d), words::of_drive(d)),
        1 => decide1(d.ballot == 0, all, words::of_drive(d)),
        _ => Turn::to(3, d.chosen.set),
    }
}
