// What the form asks of the record of one number: its pieces, ballots, sets and results.
ghost use Rattle.std.specs.Prelude.{◌≡◌};
ghost use Rattle.server_form.specs.OnePass.{number_formed, bare_formed, sets_kept, ran_formed, held_formed};

use rules::ballots::bad_ballot;
use rules::sets::{bad_set, bad_word, members};
use server::Record;
use transaction::{pieces_on, touched};

// Without pieces nothing else is there but a promise. Of most numbers there is not even that, and then no ballot is judged.
fn bare_formed(logged: bool, v: &Record) -> bool
    ensures { result ≡ bare_formed logged v.now }
{
    (v.promise == 0 || !bad_ballot(v.promise))
        & (v.arrival.some == 0)
        & (v.accepted.some == 0)
        & (v.committed.some == 0)
        & !logged
        & (v.ran == 0)
}

// The sets of a record whose pieces touch these shards, and the ballot that one of them was accepted at.
fn sets_kept(k: u32, touched: u64, t: u32, v: &Record) -> bool
    ensures { result ≡ sets_kept k touched t v.now }
{
    let arrival = v.arrival.some == 0 || !bad_word(t, touched, k, v.arrival.word);
    let accepted = v.accepted.some == 0
        || !bad_ballot(v.accepted.ballot) & !bad_set(t, touched, v.accepted.set);
    let committed = v.committed.some == 0 || !bad_set(t, touched, v.committed.set);
    arrival & accepted & committed
}

// A number in the log is committed, with all of its set in the log, and has results, one for each piece here; another has none.
fn ran_formed(k: u32, w: u64, logged: bool, v: &Record) -> bool
    ensures { result ≡ ran_formed k w logged v.now }
{
    if !logged {
        return v.ran == 0;
    }
    (v.committed.some != 0)
        & masks::within(members(v.committed.set), w)
        & (v.ran != 0)
        & (v.values.count == pieces_on(v.pieces, k))
}

fn held_formed(k: u32, w: u64, t: u32, v: &Record) -> bool
    ensures { result ≡ held_formed k w t v.now }
{
    let touched = touched(v.pieces);
    !masks::is_empty(touched)
        & !bad_ballot(v.promise)
        & sets_kept(k, touched, t, v)
        & ran_formed(k, w, masks::has(w, t as usize), v)
}

// All that the form asks of the number `t` at a server of shard `k`, where `w` is the log's word.
pub fn number_formed(k: u32, w: u64, t: u32, v: &Record) -> bool
    ensures { result ≡ number_formed k w t v.now }
{
    if v.pieces.count == 0 {
        bare_formed(masks::has(w, t as usize), v)
    } else {
        held_formed(k, w, t, v)
    }
}
