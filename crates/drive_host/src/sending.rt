// The message that a drive's phase has due, and the servers that it is due to.
ghost use Rattle.std.specs.Prelude.{◌≡◌};
ghost use Rattle.drive.specs.Due.{due_message, due};
ghost use Rattle.drive_host.specs.Sent.{sent};

use drive::Drive;
use drive_form::counts::servers_of;
use drive_form::in_form;
use messages::asks::{accept, commit, pre_accept, prepare};
use rules::refusals::Refusal;
use wire::Message;

// A message, and to which servers: bit s of the word for the server s.
#[derive(Clone, Copy)]
pub struct Letter {
    pub message: Message,
    pub servers: u32,
}

// By phase: Prepare, PreAccept, Accept, Commit.
#[tactic(auto, unfolding(drive::specs::Due::due_message))]
fn due_message(d: &Drive) -> Message
    ensures { result ≡ due_message d.now }
{
    match d.phase {
        0 => prepare(d.t, d.ballot, d.pieces),
        1 => pre_accept(d.t, d.ballot, d.pieces),
        2 => accept(d.t, d.ballot, d.pieces, d.chosen.set),
        _ => commit(d.t, d.pieces, d.chosen.set),
    }
}

// The message due and the servers of the touched shards.
#[tactic(auto, unfolding(drive::specs::Due::due))]
pub fn due(d: &Drive) -> Result<Letter, Refusal>
    ensures { sent result ≡ due d.now }
{
    let counted = in_form(d)?;
    Ok(Letter {
        message: due_message(d),
        servers: servers_of(counted.shards) as u32,
    })
}
