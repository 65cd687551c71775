// Which refusal a reply gets: the first test that fires. Each code has the tests of the fields that it has.
#![tactic(auto)]

ghost use Rattle.std.specs.Prelude.{◌≡◌, IfOk, length};
ghost use Rattle.rules.specs.Refusal.{told};
ghost use Rattle.drive.specs.Hear.{refusal};
ghost use Rattle.drive_form.specs.Parts.{counted_of};
ghost use Rattle.drive_refusals.specs.Refusals.{bad_head, elsewhere, bad_held, first_of_three, done_by, judged_by};

use drive::Drive;
use drive_form::answers::addressed;
use drive_form::{Counted, in_form};
use messages::codes::{ACCEPT_OK, BEHIND, DONE, PRE_ACCEPT_OK, PREPARE_OK};
use rules::ballots::bad_ballot;
use rules::cluster::{bad_number, bad_server};
use rules::refusals::Refusal;
use rules::sets::bad_set;
use transaction::{pieces_kept, same_pieces, too_many};
use wire::Message;

// A server's reply has a number, server or ballot out of its range.
#[tactic(auto, unfolding(crate::specs::Refusals::bad_head))]
fn bad_head(m: &Message) -> bool
    ensures { result ≡ bad_head m.now }
{
    bad_number(m.t) | bad_server(m.server) | bad_ballot(m.ballot)
}

// A server's reply is for another number or ballot, or from a server that is not one of the touched shards.
#[tactic(auto, unfolding(crate::specs::Refusals::elsewhere))]
fn elsewhere(d: &Drive, shards: u64, m: &Message) -> bool
    ensures { result ≡ elsewhere d.now shards m.now }
{
    (m.t != d.t) | (m.ballot != d.ballot) | !addressed(shards, m.server)
}

// A PrepareOK has an arrival word or an accepted set that breaks its rule.
#[tactic(auto, unfolding(crate::specs::Refusals::bad_held))]
fn bad_held(shards: u64, m: &Message) -> bool
    ensures { result ≡ bad_held shards m.now }
{
    ((m.arrival.some != 0) & masks::has(m.arrival.word, m.t as usize))
        | ((m.accepted.some != 0) & bad_set(m.t, shards, m.accepted.set))
}

// Of a server's reply: a number out of its range, then its place, then its set.
#[tactic(auto, unfolding(crate::specs::Refusals::first_of_three))]
fn first(out_of_range: bool, misplaced: bool, bad_set: bool) -> Result<(), Refusal>
    ensures { told result ≡ first_of_three out_of_range misplaced bad_set }
{
    if out_of_range {
        return Err(Refusal::OutOfRange);
    }
    if misplaced {
        return Err(Refusal::Misplaced);
    }
    if bad_set {
        return Err(Refusal::BadSet);
    }
    Ok(())
}

// What is wrong with a Done.
#[tactic(auto, unfolding(crate::specs::Refusals::done_by))]
fn judge_done(d: &Drive, shards: u64, m: &Message) -> Result<(), Refusal>
    ensures { told result ≡ done_by d.now shards m.now }
{
    if too_many(m.pieces) {
        return Err(Refusal::Unknown);
    }
    if bad_number(m.t) {
        return Err(Refusal::OutOfRange);
    }
    if !pieces_kept(m.pieces) {
        return Err(Refusal::BadPieces);
    }
    if (d.phase == 3) | (m.t != d.t) {
        return Err(Refusal::Misplaced);
    }
    if !same_pieces(d.pieces, m.pieces) {
        return Err(Refusal::OtherPieces);
    }
    if bad_set(m.t, shards, m.set) {
        return Err(Refusal::BadSet);
    }
    Ok(())
}

// What is wrong with a reply at this drive, by its code: an OK belongs to one phase, and its server is not counted yet; Behind and Done belong to any phase but 3, and Behind may come from a counted server.
#[tactic(auto, unfolding(crate::specs::Refusals::judged_by))]
pub fn judge(d: &Drive, counted: Counted, m: &Message) -> Result<(), Refusal>
    ensures { told result ≡ judged_by d.now counted m.now }
{
    let head = bad_head(m);
    let away = elsewhere(d, counted.shards, m);
    let again = masks::has(counted.answered, m.server as usize);
    match m.code {
        PRE_ACCEPT_OK => {
            let own = masks::has(m.word, m.t as usize);
            first(head, (d.phase != 1) | away | again, own)
        }
        ACCEPT_OK => first(head, (d.phase != 2) | away | again, false),
        PREPARE_OK => {
            let vote = (m.accepted.some != 0) & bad_ballot(m.accepted.ballot);
            let held = bad_held(counted.shards, m);
            first(head | vote, (d.phase != 0) | away | again, held)
        }
        BEHIND => first(head | bad_ballot(m.promise), (d.phase == 3) | away, false),
        DONE => judge_done(d, counted.shards, m),
        _ => Err(Refusal::Unknown),
    }
}

// Who is counted at a drive that takes the reply: it is in form, and nothing is wrong with the reply.
pub fn admit(d: &Drive, m: &Message) -> Result<Counted, Refusal>
    ensures refused { told result ≡ refusal d.now m.now }
    ensures counted { IfOk result (λ c. c ≡ counted_of d.now) }
    ensures whole { length d.now.answers ≡ 12 }
{
    let counted = in_form(d)?;
    judge(d, counted, m)?;
    Ok(counted)
}
