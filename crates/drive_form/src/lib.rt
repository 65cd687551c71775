// The state form of a drive, and whether its counted answers decide.
#![tactic(auto)]

ghost use Rattle.std.specs.Prelude.{◌≡◌, ◌<◌, length};
ghost use Rattle.drive.specs.Form.{numbers_formed, ballots_formed, formed};
ghost use Rattle.drive_form.specs.Parts.{head_kept, set_kept, at_first, further, walked_to, answers_kept, formed_by, in_form};

use drive::{Answer, Drive};
use rules::ballots::{bad_ballot, may_use};
use rules::cluster::{LAST_PHASE, bad_coordinator, bad_number};
use rules::refusals::Refusal;
use rules::sets::bad_set;
use transaction::touched;

pub mod answers; // answers.rt: what one answer holds, and its form
pub mod counts; // counts.rt: whether the servers that answered decide

// What a walk of the answers finds: the servers counted, what is in any of their arrival words, and whether every accepted ballot and set is in form.
#[derive(Clone, Copy)]
pub struct Walked {
    pub answered: u64,
    pub words: u64,
    pub kept: bool,
}

// The shards that a drive touches, and the servers whose answers are counted.
#[derive(Clone, Copy)]
pub struct Counted {
    pub shards: u64,
    pub answered: u64,
}

impl Walked {
    // Before the first answer.
    pub fn at_first() -> Walked
        ensures { result ≡ at_first }
    {
        Walked {
            answered: 0,
            words: 0,
            kept: true,
        }
    }

    // One answer more, that of the server `s` to the drive `d`.
    #[tactic(auto, using(crate::proofs::Parts::not_counted))]
    pub fn further(self, d: &Drive, shards: u64, s: usize, a: &Answer) -> Walked
        requires { s < 12 }
        ensures { result ≡ further d.now shards s a.now self }
    {
        if a.counted == 0 {
            return self;
        }
        Walked {
            answered: masks::insert(self.answered, s),
            words: masks::union(self.words, answers::word_of(a)),
            kept: self.kept & answers::accepted_formed(d, shards, a),
        }
    }
}

// A walk of all answers.
pub fn walk(d: &Drive, shards: u64) -> Walked
    ensures walked { result ≡ walked_to d.now shards 12 }
    ensures whole { length d.now.answers ≡ 12 }
{
    let mut walked = Walked::at_first();
    for s in 0..12 {
        walked = walked.further(d, shards, s, &d.answers[s]);
    }
    walked
}

// Number, coordinator and phase are in range.
#[tactic(auto, unfolding(drive::specs::Form::numbers_formed))]
fn numbers_formed(d: &Drive) -> bool
    ensures { result ≡ numbers_formed d.now }
{
    !bad_number(d.t) & !bad_coordinator(d.coordinator) & (d.phase <= LAST_PHASE)
}

// The ballot is one that the coordinator may use, not 0 in phase 0; the promise seen is valid.
#[tactic(auto, unfolding(drive::specs::Form::ballots_formed))]
fn ballots_formed(d: &Drive) -> bool
    ensures { result ≡ ballots_formed d.now }
{
    may_use(d.coordinator, d.t, d.ballot) & ((d.phase != 0) | (d.ballot != 0)) & !bad_ballot(d.seen)
}

// All that is not an answer or a set, where the pieces touch the shards in `shards`: none if they break their rule.
pub fn head_formed(d: &Drive, shards: u64) -> bool
    ensures { result ≡ head_kept d.now shards }
{
    numbers_formed(d) & !masks::is_empty(shards) & ballots_formed(d)
}

// A set is held exactly in phases 2 and 3, and keeps rule 3.
pub fn set_formed(d: &Drive, shards: u64) -> bool
    ensures { result ≡ set_kept d.now shards }
{
    let held = d.chosen.some != 0;
    if d.phase < 2 {
        return !held;
    }
    held & !bad_set(d.t, shards, d.chosen.set)
}

// The counted servers, and what is in any of their words: from touched servers only, none in phase 3, no word with the number itself, and too few to decide.
#[tactic(auto, unfolding(crate::specs::Parts::answers_kept))]
pub fn answers_formed(d: &Drive, shards: u64, walked: Walked) -> bool
    ensures { result ≡ answers_kept d.now shards walked }
{
    let last = d.phase == 3;
    let counted = Counted {
        shards,
        answered: walked.answered,
    };
    masks::within(walked.answered, counts::servers_of(shards))
        & (!last | masks::is_empty(walked.answered))
        & (!(d.phase < 2) | !masks::has(walked.words, d.t as usize))
        & (last | !counted.decided(d.phase))
}

// The form, from the touched shards of a drive and the walk of its answers.
#[tactic(auto, unfolding(crate::specs::Parts::formed_by))]
pub fn formed_by(d: &Drive, shards: u64, walked: Walked) -> bool
    ensures { result ≡ formed_by d.now shards walked }
{
    head_formed(d, shards) & answers_formed(d, shards, walked) & walked.kept & set_formed(d, shards)
}

// Who is counted at a drive in form.
pub fn in_form(d: &Drive) -> Result<Counted, Refusal>
    ensures in_form { result ≡ in_form d.now }
    ensures whole { length d.now.answers ≡ 12 }
{
    let shards = touched(d.pieces);
    let walked = walk(d, shards);
    if formed_by(d, shards, walked) {
        Ok(Counted {
            shards,
            answered: walked.answered,
        })
    } else {
        Err(Refusal::OutOfForm)
    }
}

// The drive is in form.
pub fn formed(d: &Drive) -> bool
    ensures { result ≡ formed d.now }
{
    in_form(d).is_ok()
}
