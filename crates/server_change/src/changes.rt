// What each message does to the record of its T at the server `id`, and the reply.
ghost use Rattle.std.specs.Prelude.{◌≡◌};
ghost use Rattle.server.specs.Changes.{promised, asked, arrive, pre_accepted, accepted, prepared, committed, inquired, fetched, change};
ghost use Rattle.server.specs.declared.Changed.{Changed};

use messages::codes::{ACCEPT, COMMIT, DONE, INQUIRE, PRE_ACCEPT, PREPARE};
use messages::replies;
use rules::{MaybeSet, MaybeVote, MaybeWord};
use server::{Changed, Record};
use wire::Message;

// The ballot is promised, and the pieces are held.
fn promised(m: &Message, v: &Record) -> Record
    ensures { result ≡ promised m.now v.now }
{
    let mut n = *v;
    n.pieces = m.pieces;
    n.promise = m.ballot;
    n
}

// The arrival set `w` is fixed, unless one is there.
fn arrive(w: u64, v: Record) -> Record
    ensures { result ≡ arrive w v }
{
    let mut n = v;
    if n.arrival.some == 0 {
        n.arrival = MaybeWord { some: 1, word: w };
    }
    n
}

// A committed T is answered Done, and a ballot below the promise Behind, and neither changes anything; else what `change` does.
fn asked<F: FnOnce() -> Changed>(id: u32, v: &Record, m: &Message, change: F) -> Changed
    requires { F.IsAlwaysCallable change }
    ensures { (c : Changed) → ((x : Changed) → F.post change x → x ≡ c) → result ≡ asked id v.now m.now c }
{
    if v.committed.some != 0 {
        let reply = replies::done(m.t, v.pieces, v.committed.set);
        return Changed { after: *v, reply };
    }
    if m.ballot < v.promise {
        let reply = replies::behind(m.t, id, m.ballot, v.promise);
        return Changed { after: *v, reply };
    }
    change()
}

// The arrival set is answered; what is accepted stays.
fn pre_accepted(id: u32, w: u64, v: &Record, m: &Message) -> Changed
    ensures { result ≡ pre_accepted id w v.now m.now }
{
    let after = arrive(w, promised(m, v));
    let reply = replies::pre_accept_ok(m.t, id, m.ballot, after.arrival.word);
    Changed { after, reply }
}

// Ballot and set are held as accepted.
fn accepted(id: u32, v: &Record, m: &Message) -> Changed
    ensures { result ≡ accepted id v.now m.now }
{
    let mut after = promised(m, v);
    after.accepted = MaybeVote {
        some: 1,
        ballot: m.ballot,
        set: m.set,
    };
    let reply = replies::accept_ok(m.t, id, m.ballot);
    Changed { after, reply }
}

// The answer says what arrived and what is accepted.
fn prepared(id: u32, v: &Record, m: &Message) -> Changed
    ensures { result ≡ prepared id v.now m.now }
{
    let after = promised(m, v);
    let reply = replies::prepare_ok(m.t, id, m.ballot, v.arrival, v.accepted);
    Changed { after, reply }
}

// Pieces and set are held as committed; a repeat changes nothing. Nothing has run yet: whoever runs puts the count into the reply.
fn committed(id: u32, v: &Record, m: &Message) -> Changed
    ensures { result ≡ committed id v.now m.now }
{
    let mut after = *v;
    if v.committed.some == 0 {
        after.pieces = m.pieces;
        after.committed = MaybeSet {
            some: 1,
            set: m.set,
        };
    }
    let reply = replies::commit_ok(m.t, id, 0);
    Changed { after, reply }
}

// Done if T is committed, else NotYet.
fn inquired(id: u32, v: &Record, m: &Message) -> Changed
    ensures { result ≡ inquired id v.now m.now }
{
    let reply = if v.committed.some != 0 {
        replies::done(m.t, v.pieces, v.committed.set)
    } else {
        replies::not_yet(m.t, id)
    };
    Changed { after: *v, reply }
}

// The results once T has run, else NotYet.
fn fetched(id: u32, v: &Record, m: &Message) -> Changed
    ensures { result ≡ fetched id v.now m.now }
{
    let reply = if v.ran != 0 {
        replies::results(m.t, id, v.values)
    } else {
        replies::not_yet(m.t, id)
    };
    Changed { after: *v, reply }
}

// The message's own change; `w` is the arrival set that a PreAccept fixes.
pub fn change(id: u32, w: u64, v: &Record, m: &Message) -> Changed
    ensures { result ≡ change id w v.now m.now }
{
    match m.code {
        PRE_ACCEPT => asked(id, v, m, || pre_accepted(id, w, v, m)),
        ACCEPT => asked(id, v, m, || accepted(id, v, m)),
        PREPARE => asked(id, v, m, || prepared(id, v, m)),
        COMMIT | DONE => committed(id, v, m),
        INQUIRE => inquired(id, v, m),
        _ => fetched(id, v, m),
    }
}
