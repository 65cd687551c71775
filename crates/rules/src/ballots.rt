// Who may use which ballot, and the next one above a number.
ghost use Rattle.std.specs.Prelude.{◌≡◌};
ghost use Rattle.rules.specs.Ballots.{origin, bad_ballot, recovers_with, may_use, next_above, no_next};

use crate::Ballot;

// The coordinator that the number `t` belongs to.
pub fn origin(t: u32) -> u32
    ensures { result ≡ origin t }
{
    t % Ballot::STEP
}

// Rule 1 of a ballot or a promise: 1 to 7, or above the last.
pub fn bad_ballot(b: u32) -> bool
    ensures { result ≡ bad_ballot b }
{
    !((b == 0) | ((Ballot::FIRST <= b) & (b <= Ballot::LAST)))
}

// Coordinator `c` recovers with `b`.
pub fn recovers_with(c: u32, b: u32) -> bool
    ensures { result ≡ recovers_with c b }
{
    (Ballot::FIRST <= b) & (b <= Ballot::LAST) & (b % Ballot::STEP == c)
}

// Coordinator `c` may use `b` for the number `t`.
#[tactic(auto, unfolding(crate::specs::Ballots::may_use))]
pub fn may_use(c: u32, t: u32, b: u32) -> bool
    ensures { result ≡ may_use c t b }
{
    if b == 0 {
        return c == origin(t);
    }
    recovers_with(c, b)
}

// The smallest number above `n` that `c` could recover with, in 64 bits, where it always fits.
#[tactic(auto, unfolding(crate::specs::Ballots::next_above))]
pub fn next_above(c: u32, n: u32) -> u64
    ensures { result ≡ next_above c n }
{
    let own = c as u64;
    let floor = n as u64;
    let step = Ballot::STEP as u64;
    let first = Ballot::FIRST as u64 + own;
    if floor < first {
        return first;
    }
    own + step * ((floor - own) / step + 1)
}

// It is no ballot any more.
#[tactic(auto, unfolding(crate::specs::Ballots::no_next))]
pub fn no_next(c: u32, n: u32) -> bool
    ensures { result ≡ no_next c n }
{
    (Ballot::LAST as u64) < next_above(c, n)
}
