// A fresh server in the place of a lent one: each record is stored in its place. On a refusal the lent server stays as it was.
ghost use Rattle.std.specs.Prelude.{◌≡◌};
ghost use Rattle.rules.specs.Refusal.{told};
ghost use Rattle.server.specs.Host.{fresh};

use rules::cluster::bad_server;
use rules::refusals::Refusal;
use server::Server;
use server_run::first::{fresh_record, no_counters, no_log};

// A fresh server `id` in the lent place, whatever stood there.
pub fn fresh(s: &mut Server, id: u32) -> Result<(), Refusal>
    ensures refusal { told result ≡ (fresh s.old id).refusal }
    ensures server { s.new ≡ (fresh s.old id).server }
{
    if bad_server(id) {
        return Err(Refusal::OutOfRange);
    }
    s.id = id;
    s.records.fill(fresh_record());
    s.counters = no_counters();
    s.log = no_log();
    Ok(())
}
