// The refusals of a message at a server, and their order.
ghost use Rattle.std.specs.Prelude.{◌≡◌, true};
ghost use Rattle.rules.specs.Refusal.{told};
ghost use Rattle.wire.specs.Codes.{commits};
ghost use Rattle.server.specs.Refusals.{not_taken, untouched, other_pieces, other_set};
ghost use Rattle.server_step.specs.OneStore.{refusal_by};

use messages::codes::{ACCEPT, COMMIT, DONE, PRE_ACCEPT, PREPARE, server_takes, shape_of};
use rules::refusals::Refusal;
use server::Record;
use transaction::{same_pieces, shards_of};
use wire::Message;

// A code that a server does not take, or a count above 8.
fn not_taken(m: &Message) -> bool
    ensures { result ≡ not_taken m.now }
{
    !server_takes(m.code) | faults::over_count(m)
}

// A PreAccept, Accept or Prepare, where T does not touch this server's shard.
fn untouched(k: u32, touched: u64, m: &Message) -> bool
    ensures { result ≡ untouched k touched m.now }
{
    let asks = (m.code == PRE_ACCEPT) | (m.code == ACCEPT) | (m.code == PREPARE);
    asks & !masks::has(touched, k as usize)
}

// Other pieces than those held.
fn other_pieces(v: &Record, m: &Message) -> bool
    ensures { result ≡ other_pieces v.now m.now }
{
    let both = shape_of(m.code).pieces & (v.pieces.count != 0);
    both && !same_pieces(v.pieces, m.pieces)
}

// A Commit or Done with another set than the one that is committed.
fn other_set(v: &Record, m: &Message) -> bool
    ensures { result ≡ other_set v.now m.now }
{
    commits(m.code) & (v.committed.some != 0) & (v.committed.set != m.set)
}

// The refusal at a server of shard `k` that keeps its form, and that holds `v` of the message's T: the first test that fires.
pub fn refuse(k: u32, v: &Record, m: &Message) -> Result<(), Refusal>
    ensures { told result ≡ refusal_by true k v.now m.now }
{
    if not_taken(m) {
        return Err(Refusal::Unknown);
    }
    if faults::bad_numbers(m) {
        return Err(Refusal::OutOfRange);
    }
    if faults::bad_pieces(m) {
        return Err(Refusal::BadPieces);
    }
    let touched = shards_of(m.pieces);
    if faults::bad_sets(touched, m) {
        return Err(Refusal::BadSet);
    }
    if untouched(k, touched, m) {
        return Err(Refusal::Untouched);
    }
    if other_pieces(v, m) {
        return Err(Refusal::OtherPieces);
    }
    if other_set(v, m) {
        return Err(Refusal::OtherSet);
    }
    Ok(())
}

// A message with this code, once it is not refused, runs what is ready: a Commit, or a Done as one.
pub fn commits(code: u32) -> bool
    ensures { result ≡ commits code }
{
    (code == COMMIT) | (code == DONE)
}
