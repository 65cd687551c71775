// What a message comes to at a lent server: each record is read in its place.
ghost use Rattle.std.specs.Prelude.{◌≡◌, IfOk};
ghost use Rattle.rules.specs.Refusal.{told};
ghost use Rattle.server_read.specs.InPlace.{kept, earlier_in, considered_by};

use crate::form::Form;
use messages::codes::PRE_ACCEPT;
use rules::Keys;
use rules::refusals::Refusal;
use server::Server;
use server_change::changes::change;
use server_step::Considered;
use server_step::record::{came_earlier, place_of};
use server_step::refusals::refuse;
use transaction::conflicts::keys_on;
use wire::Message;

// The numbers that have arrived, and that conflict with these keys at shard `k`.
fn earlier(s: &Server, keys: Keys, k: u32) -> u64
    ensures { result ≡ earlier_in s.now keys k 64 }
{
    let mut word: u64 = 0;
    for (t, record) in s.records.iter().enumerate() {
        word = masks::put(word, t, came_earlier(keys, k, record));
    }
    word
}

// What the step of the lent server, whose form is known, comes to on the message `m` before anything runs. The arrival set is looked for only where the message fixes it.
// It stays a function of its own: laid into its caller, the records and replies that it makes on the way would lie on the stack while a Commit runs.
#[inline(never)]
pub fn weigh(s: &Server, f: Form, m: &Message) -> Result<Considered, Refusal>
    ensures refusal { told result ≡ (considered_by s.now (kept f) m.now).refusal }
    ensures taken { let o = considered_by s.now (kept f) m.now in IfOk result (λ c. c ≡ record { place = o.place; after = o.after; reply = o.reply }) }
{
    let place = place_of(m.t);
    let v = &s.records[place];
    refuse(f.shard, v, m)?;
    let fixes = (m.code == PRE_ACCEPT) & (v.arrival.some == 0);
    let word = if fixes {
        earlier(s, keys_on(m.pieces, f.shard), f.shard)
    } else {
        0
    };
    let c = change(f.id, word, v, m);
    Ok(Considered {
        place,
        after: c.after,
        reply: c.reply,
    })
}
