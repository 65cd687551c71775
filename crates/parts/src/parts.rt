// A dependency set, and the parts that may be missing: a flag, and then the part where it is set.
ghost use Rattle.std.specs.Prelude.{◌≡◌};
ghost use Rattle.std.proofs.Common.{rules};
ghost use Rattle.rules.specs.Sets.{no_set};
ghost use Rattle.rules.specs.Maybe.{no_word, no_vote};
ghost use Rattle.wire.specs.Parts.{set4, maybe_word, maybe_vote, prepared};

use crate::item::{Item, get_if, put_if};
use rules::{MaybeVote, MaybeWord, Set};
use xdr::{Cursor, Got};

impl Item for Set {
    ghost form = { set4 };

    ghost blank = { no_set };

    #[tactic(auto, unfolding(wire::specs::Parts::set4))]
    fn get(s: &[u8], c: Cursor) -> Got<Set> {
        let w0 = xdr::get_u64(s, c);
        let w1 = xdr::get_u64(s, w0.next);
        let w2 = xdr::get_u64(s, w1.next);
        let w3 = xdr::get_u64(s, w2.next);
        let v = Set {
            w0: w0.v,
            w1: w1.v,
            w2: w2.v,
            w3: w3.v,
        };
        Got { v, next: w3.next }
    }

    fn put(&self, out: &mut [u8], at: usize) -> usize {
        let a = self.w0.put(out, at);
        let b = self.w1.put(out, a);
        let c = self.w2.put(out, b);
        self.w3.put(out, c)
    }

    ghost defaults = { Prim.search rules };
}

impl Item for MaybeWord {
    ghost form = { maybe_word };

    ghost blank = { no_word };

    fn get(s: &[u8], c: Cursor) -> Got<MaybeWord> {
        let there = xdr::get_bool(s, c);
        let word = get_if::<u64>(there.v, s, there.next);
        let v = MaybeWord {
            some: u32::from(there.v),
            word: word.v,
        };
        Got { v, next: word.next }
    }

    fn put(&self, out: &mut [u8], at: usize) -> usize {
        let there = self.some != 0;
        let a = there.put(out, at);
        put_if(out, a, there, &self.word)
    }

    ghost defaults = { Prim.search rules };
}

impl Item for MaybeVote {
    ghost form = { maybe_vote };

    ghost blank = { no_vote };

    fn get(s: &[u8], c: Cursor) -> Got<MaybeVote> {
        let there = xdr::get_bool(s, c);
        let ballot = get_if::<u32>(there.v, s, there.next);
        let set = get_if::<Set>(there.v, s, ballot.next);
        let v = MaybeVote {
            some: u32::from(there.v),
            ballot: ballot.v,
            set: set.v,
        };
        Got { v, next: set.next }
    }

    fn put(&self, out: &mut [u8], at: usize) -> usize {
        let there = self.some != 0;
        let a = there.put(out, at);
        let b = put_if(out, a, there, &self.ballot);
        put_if(out, b, there, &self.set)
    }

    ghost defaults = { Prim.search rules };
}

impl Item for (MaybeWord, MaybeVote) {
    ghost form = { prepared };

    ghost blank = { (no_word, no_vote) };

    fn get(s: &[u8], c: Cursor) -> Got<(MaybeWord, MaybeVote)> {
        let arrival = MaybeWord::get(s, c);
        let accepted = MaybeVote::get(s, arrival.next);
        Got {
            v: (arrival.v, accepted.v),
            next: accepted.next,
        }
    }

    fn put(&self, out: &mut [u8], at: usize) -> usize {
        let a = self.0.put(out, at);
        self.1.put(out, a)
    }

    ghost defaults = { Prim.search rules };
}
