// The highest accepted ballot among the counted answers.
ghost use Rattle.std.specs.Prelude.{◌≡◌, ◌<◌, IfSome, unwrap_or};
ghost use Rattle.drive.specs.Decide.{better, highest};
ghost use Rattle.drive_decide.specs.Turns.{server_or_none, vote_of};

use drive::Drive;
use drive_form::answers::has_accepted;
use rules::Set;

// Of the server `best` so far and the server `s`: who holds the higher accepted ballot; of equals `best`.
#[tactic(auto, unfolding(drive::specs::Decide::better))]
fn better(d: &Drive, s: usize, best: Option<usize>) -> Option<usize>
    requires in_range { s < 12 }
    requires best_in_range { IfSome best (λ b. b < 12) }
    ensures higher { unwrap_or result 12 ≡ better d.now s (unwrap_or best 12) }
    ensures below { IfSome result (λ b. b < 12) }
{
    let a = &d.answers[s];
    if !has_accepted(a) {
        return best;
    }
    match best {
        Some(b) if a.accepted.ballot <= d.answers[b].accepted.ballot => best,
        _ => Some(s),
    }
}

// The server that holds the highest accepted ballot.
pub fn highest(d: &Drive) -> Option<usize>
    ensures { result ≡ server_or_none (highest d.now) }
{
    let mut best = None;
    for s in 0..12 {
        best = better(d, s, best);
    }
    best
}

// The accepted set of the highest ballot.
pub fn best(d: &Drive) -> Option<Set>
    ensures { result ≡ vote_of d.now }
{
    highest(d).map(|s| d.answers[s].accepted.set)
}
