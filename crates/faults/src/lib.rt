// What is wrong with a message by itself, by refusals 12, 1, 2 and 3, in the fields that its code has: the tests of a server. A drive has its own, by the kind of reply.
#![tactic(auto)]

ghost use Rattle.std.specs.Prelude.{◌≡◌, ◌&&◌};
ghost use Rattle.rules.specs.Sets.{bad_set};
ghost use Rattle.wire.specs.Faults.{over_count, bad_numbers, bad_pieces, bad_sets};

use messages::codes::{PREPARE, shape_of};
use rules::Set;
use rules::ballots::bad_ballot;
use rules::cluster::{bad_number, bad_server};
use rules::sets::bad_set;
use transaction::{pieces_kept, too_many};
use wire::Message;

// 12: a count above 8.
#[tactic(auto, unfolding(wire::specs::Faults::over_count))]
pub fn over_count(m: &Message) -> bool
    ensures { result ≡ over_count m.now }
{
    let shape = shape_of(m.code);
    shape.pieces & too_many(m.pieces)
}

// 1: a number, server, ballot or promise out of its range, or a Prepare at ballot 0.
#[tactic(auto, unfolding(wire::specs::Faults::bad_numbers))]
pub fn bad_numbers(m: &Message) -> bool
    ensures { result ≡ bad_numbers m.now }
{
    let shape = shape_of(m.code);
    bad_number(m.t)
        | (shape.server & bad_server(m.server))
        | (shape.ballot & bad_ballot(m.ballot))
        | (shape.promise & bad_ballot(m.promise))
        | (shape.prepared & (m.accepted.some != 0) & bad_ballot(m.accepted.ballot))
        | ((m.code == PREPARE) & (m.ballot == 0))
}

// 2: pieces that break their rule.
#[tactic(auto, unfolding(wire::specs::Faults::bad_pieces))]
pub fn bad_pieces(m: &Message) -> bool
    ensures { result ≡ bad_pieces m.now }
{
    let shape = shape_of(m.code);
    shape.pieces && !pieces_kept(m.pieces)
}

// A set that is there breaks rule 3.
fn bad_where(there: bool, t: u32, touched: u64, v: Set) -> bool
    ensures { result ≡ (there && bad_set t touched v) }
{
    there && bad_set(t, touched, v)
}

// 3: a set or an arrival word that breaks its rule, where the number touches the shards in `touched`.
#[tactic(auto, unfolding(wire::specs::Faults::bad_sets))]
pub fn bad_sets(touched: u64, m: &Message) -> bool
    ensures { result ≡ bad_sets touched m.now }
{
    let shape = shape_of(m.code);
    let t = m.t as usize;
    bad_where(shape.set, m.t, touched, m.set)
        | (shape.word & masks::has(m.word, t))
        | (shape.prepared & (m.arrival.some != 0) & masks::has(m.arrival.word, t))
        | bad_where(
            shape.prepared & (m.accepted.some != 0),
            m.t,
            touched,
            m.accepted.set,
        )
}
