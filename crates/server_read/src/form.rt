// The form of a lent server: the server's number and the log first, then each record in its place.
ghost use Rattle.std.specs.Prelude.{◌≡◌, true, false, MatchResult};
ghost use Rattle.server.specs.Form.{formed};
ghost use Rattle.server_read.specs.InPlace.{form_of};

use rules::cluster::{bad_server, shard_of};
use rules::refusals::Refusal;
use server::Server;
use server_form::log::read_log;
use server_form::number::number_formed;

// What is read of a server that keeps its form: its number and its shard, and the log's word.
#[derive(Clone, Copy)]
pub struct Form {
    pub id: u32,
    pub shard: u32,
    pub word: u64,
}

// The form of a lent server, where it is kept.
pub fn read_form(s: &Server) -> Result<Form, Refusal>
    ensures { MatchResult result (λ f. (formed s.now ≡ true) × (f ≡ form_of s.now)) (λ e. (formed s.now ≡ false) × (e ≡ Refusal.OutOfForm)) }
{
    if bad_server(s.id) {
        return Err(Refusal::OutOfForm);
    }
    let Some(word) = read_log(&s.log) else {
        return Err(Refusal::OutOfForm);
    };
    let shard = shard_of(s.id);
    for (t, record) in s.records.iter().enumerate() {
        let kept = number_formed(shard, word, t as u32, record);
        if !kept {
            return Err(Refusal::OutOfForm);
        }
    }
    Ok(Form {
        id: s.id,
        shard,
        word,
    })
}
