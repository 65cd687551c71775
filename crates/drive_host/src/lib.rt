// What the host says to a drive: start, recover, again, move on; and the message that is due. On a refusal the drive stays as it was lent.
#![tactic(auto)]

ghost use Rattle.std.specs.Prelude.{◌≡◌, IfOk};
ghost use Rattle.rules.specs.Ballots.{next_above};
ghost use Rattle.rules.specs.Refusal.{told};
ghost use Rattle.drive.specs.Held.{began};
ghost use Rattle.drive.specs.Host.{start_refusal, start, recover_refusal, recover, again, move_on};

use drive::{Answer, Drive};
use drive_decide::decide;
use drive_form::in_form;
use rules::ballots::origin;
use rules::cluster::{bad_coordinator, bad_number};
use rules::refusals::Refusal;
use rules::{Ballot, MaybeSet, Pieces};
use transaction::{pieces_kept, too_many};

pub mod sending; // sending.rt: the message due, and to whom

// A drive at the beginning of phase 0 or 1, with no set.
pub fn began(t: u32, coordinator: u32, ballot: u32, phase: u32, pieces: Pieces, seen: u32) -> Drive
    ensures { result ≡ began t coordinator ballot phase pieces seen }
{
    Drive {
        t,
        coordinator,
        ballot,
        phase,
        pieces,
        answers: [Answer::default(); 12],
        chosen: MaybeSet::default(),
        seen,
    }
}

// What is wrong with a start.
#[tactic(auto, unfolding(drive::specs::Host::start_refusal))]
fn judge_start(coordinator: u32, t: u32, pieces: Pieces) -> Result<(), Refusal>
    ensures { told result ≡ start_refusal coordinator t pieces }
{
    if too_many(pieces) {
        return Err(Refusal::Unknown);
    }
    if bad_coordinator(coordinator) | bad_number(t) | (coordinator != origin(t)) {
        return Err(Refusal::OutOfRange);
    }
    if !pieces_kept(pieces) {
        return Err(Refusal::BadPieces);
    }
    Ok(())
}

// Phase 1 at ballot 0, by the origin of `t`. What the lent drive held is not judged.
#[tactic(auto, unfolding(drive::specs::Host::start, drive::specs::Host::unless))]
pub fn start(d: &mut Drive, coordinator: u32, t: u32, pieces: Pieces) -> Result<(), Refusal>
    ensures refused { told result ≡ (start d.old coordinator t pieces).refusal }
    ensures started { d.new ≡ (start d.old coordinator t pieces).drive }
{
    judge_start(coordinator, t, pieces)?;
    *d = began(t, coordinator, 0, 1, pieces, 0);
    Ok(())
}

// The ballot of a recovery, the next above `floor`, or what is wrong with it.
#[tactic(auto, unfolding(drive::specs::Host::recover_refusal, rules::specs::Ballots::next_ballot, rules::specs::Ballots::next_refusal))]
fn judge_recovery(coordinator: u32, t: u32, pieces: Pieces, floor: u32) -> Result<Ballot, Refusal>
    ensures refused { told result ≡ recover_refusal coordinator t pieces floor }
    ensures next { IfOk result (λ b. b.number ≡ next_above coordinator floor) }
{
    if too_many(pieces) {
        return Err(Refusal::Unknown);
    }
    if bad_coordinator(coordinator) | bad_number(t) {
        return Err(Refusal::OutOfRange);
    }
    if !pieces_kept(pieces) {
        return Err(Refusal::BadPieces);
    }
    Ballot::next(coordinator, floor)
}

// Phase 0 at the next ballot above `floor`. What the lent drive held is not judged.
#[tactic(auto, unfolding(drive::specs::Host::recover, drive::specs::Host::unless))]
pub fn recover(
    d: &mut Drive,
    coordinator: u32,
    t: u32,
    pieces: Pieces,
    floor: u32,
) -> Result<(), Refusal>
    ensures refused { told result ≡ (recover d.old coordinator t pieces floor).refusal }
    ensures recovers { d.new ≡ (recover d.old coordinator t pieces floor).drive }
{
    let ballot = judge_recovery(coordinator, t, pieces, floor)?;
    *d = began(t, coordinator, ballot.number, 0, pieces, 0);
    Ok(())
}

// Phase 0 at the next ballot above its own and every promise seen.
#[tactic(auto, unfolding(drive::specs::Host::again, drive::specs::Host::again_refusal, drive::specs::Host::unless))]
pub fn again(d: &mut Drive) -> Result<(), Refusal>
    ensures refused { told result ≡ (again d.old).refusal }
    ensures again { d.new ≡ (again d.old).drive }
{
    in_form(d)?;
    if d.phase == 3 {
        return Err(Refusal::Misplaced);
    }
    let ballot = Ballot::next(d.coordinator, d.ballot.max(d.seen))?;
    *d = began(d.t, d.coordinator, ballot.number, 0, d.pieces, d.seen);
    Ok(())
}

// Decide with two answers in each shard.
#[tactic(auto, unfolding(drive::specs::Host::move_on, drive::specs::Host::move_on_refusal, drive::specs::Host::unless))]
pub fn move_on(d: &mut Drive) -> Result<(), Refusal>
    ensures refused { told result ≡ (move_on d.old).refusal }
    ensures moved { d.new ≡ (move_on d.old).drive }
{
    let counted = in_form(d)?;
    if d.phase == 3 {
        return Err(Refusal::Misplaced);
    }
    if !counted.two_in_each() {
        return Err(Refusal::TooFew);
    }
    decide(d, counted.all_answered()).begin(d);
    Ok(())
}
