// What a server takes, each made from its fields. (A server takes a Done too, which is among the replies.)
ghost use Rattle.std.specs.Prelude.{◌≡◌};
ghost use Rattle.wire.specs.Messages.{pre_accept, accept, commit, prepare, inquire, fetch};

use crate::codes::{ACCEPT, COMMIT, FETCH, INQUIRE, PRE_ACCEPT, PREPARE};
use rules::{Pieces, Set};
use wire::Message;

pub fn pre_accept(t: u32, ballot: u32, pieces: Pieces) -> Message
    ensures { result ≡ pre_accept t ballot pieces }
{
    Message {
        code: PRE_ACCEPT,
        t,
        ballot,
        pieces,
        ..Message::default()
    }
}

pub fn accept(t: u32, ballot: u32, pieces: Pieces, set: Set) -> Message
    ensures { result ≡ accept t ballot pieces set }
{
    Message {
        code: ACCEPT,
        t,
        ballot,
        pieces,
        set,
        ..Message::default()
    }
}

pub fn commit(t: u32, pieces: Pieces, set: Set) -> Message
    ensures { result ≡ commit t pieces set }
{
    Message {
        code: COMMIT,
        t,
        pieces,
        set,
        ..Message::default()
    }
}

pub fn prepare(t: u32, ballot: u32, pieces: Pieces) -> Message
    ensures { result ≡ prepare t ballot pieces }
{
    Message {
        code: PREPARE,
        t,
        ballot,
        pieces,
        ..Message::default()
    }
}

pub fn inquire(t: u32) -> Message
    ensures { result ≡ inquire t }
{
    Message {
        code: INQUIRE,
        t,
        ..Message::default()
    }
}

pub fn fetch(t: u32) -> Message
    ensures { result ≡ fetch t }
{
    Message {
        code: FETCH,
        t,
        ..Message::default()
    }
}
