// The fourteen messages, each made from its fields, and the table of their codes. A field that a message does not have is zero.
#![tactic(auto)]

ghost use Rattle.std.specs.Prelude.{◌≡◌};
ghost use Rattle.rules.specs.Pieces.{no_pieces};
ghost use Rattle.rules.specs.Sets.{no_set};
ghost use Rattle.wire.specs.Messages.{message, blank};

use wire::Message;

pub mod codes; // codes.rt: the codes, the fields that each has, and who takes it
pub mod blanks; // blanks.rt: no pieces, no set, no results
pub mod asks; // asks.rt: what a server takes
pub mod replies; // replies.rt: what a server answers

// A code, T, server, ballot and promise, and nothing else.
pub fn plain(code: u32, t: u32, server: u32, ballot: u32, promise: u32) -> Message
    ensures { result ≡ message code t server ballot promise no_pieces no_set }
{
    Message {
        code,
        t,
        server,
        ballot,
        promise,
        ..Message::default()
    }
}

// What a refused step answers.
pub fn blank() -> Message
    ensures { result ≡ blank }
{
    Message::default()
}
