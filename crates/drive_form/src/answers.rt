// What one answer holds, and its form.
ghost use Rattle.std.specs.Prelude.{◌≡◌};
ghost use Rattle.drive.specs.Held.{addressed};
ghost use Rattle.drive.specs.Decide.{has_word, has_accepted};
ghost use Rattle.drive.specs.Form.{accepted_formed};
ghost use Rattle.drive_form.specs.Parts.{word_of};

use drive::{Answer, Drive};

// A counted answer with an arrival word.
pub fn has_word(a: &Answer) -> bool
    ensures { result ≡ has_word a.now }
{
    (a.counted != 0) & (a.arrival.some != 0)
}

// A counted answer with an accepted set.
pub fn has_accepted(a: &Answer) -> bool
    ensures { result ≡ has_accepted a.now }
{
    (a.counted != 0) & (a.accepted.some != 0)
}

// The server `s` is one of the touched shards.
pub fn addressed(shards: u64, s: u32) -> bool
    ensures { result ≡ addressed shards s }
{
    masks::has(shards, rules::cluster::shard_of(s) as usize)
}

// The word of a counted answer, or nothing.
pub fn word_of(a: &Answer) -> u64
    ensures { result ≡ word_of a.now }
{
    if has_word(a) { a.arrival.word } else { 0 }
}

// The accepted ballot and set that an answer to `d` holds in phase 0.
#[tactic(auto, unfolding(drive::specs::Form::accepted_formed))]
pub fn accepted_formed(d: &Drive, shards: u64, a: &Answer) -> bool
    ensures { result ≡ accepted_formed d.now.t shards d.now.phase a.now }
{
    if (d.phase == 0) & has_accepted(a) {
        !rules::ballots::bad_ballot(a.accepted.ballot)
            & !rules::sets::bad_set(d.t, shards, a.accepted.set)
    } else {
        true
    }
}
