// The wanted set of a lent server.
ghost use Rattle.std.specs.Prelude.{◌≡◌, true, false, MatchResult};
ghost use Rattle.rules.specs.Sets.{set_of};
ghost use Rattle.server.specs.Form.{formed};
ghost use Rattle.server.specs.Host.{wanted, wanted_in};

use crate::form::read_form;
use messages::blanks::no_set;
use rules::Set;
use rules::refusals::Refusal;
use rules::sets::union_set;
use server::{Server, Wants};
use server_run::gather::{named, set_without};

// The numbers that committed sets name and that are not committed here, shard by shard, where the form is kept.
fn missing(s: &Server) -> Result<Set, Refusal>
    ensures { MatchResult result (λ v. (formed s.now ≡ true) × (v ≡ set_of (wanted_in s.now))) (λ e. (formed s.now ≡ false) × (e ≡ Refusal.OutOfForm)) }
{
    read_form(s)?;
    let mut all = no_set();
    let mut committed: u64 = 0;
    for (t, record) in s.records.iter().enumerate() {
        all = union_set(all, named(&record.committed));
        committed = masks::put(committed, t, record.committed.some != 0);
    }
    Ok(set_without(all, committed))
}

// The same as a host is told.
pub fn wanted(s: &Server) -> Wants
    ensures { result ≡ wanted s.now }
{
    match missing(s) {
        Ok(set) => Wants { refusal: 0, set },
        Err(refusal) => Wants {
            refusal: u32::from(refusal),
            set: no_set(),
        },
    }
}
