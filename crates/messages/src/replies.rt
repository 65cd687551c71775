// A server's replies, each made from its fields. A field that a reply does not have is zero.
ghost use Rattle.std.specs.Prelude.{◌≡◌};
ghost use Rattle.wire.specs.Messages.{pre_accept_ok, accept_ok, prepare_ok, commit_ok, done, behind, not_yet, results};

use crate::codes::{
    ACCEPT_OK, BEHIND, COMMIT_OK, DONE, NOT_YET, PRE_ACCEPT_OK, PREPARE_OK, RESULTS,
};
use rules::{MaybeVote, MaybeWord, Pieces, Set, Values};
use wire::Message;

pub fn pre_accept_ok(t: u32, server: u32, ballot: u32, word: u64) -> Message
    ensures { result ≡ pre_accept_ok t server ballot word }
{
    Message {
        code: PRE_ACCEPT_OK,
        t,
        server,
        ballot,
        word,
        ..Message::default()
    }
}

pub fn accept_ok(t: u32, server: u32, ballot: u32) -> Message
    ensures { result ≡ accept_ok t server ballot }
{
    Message {
        code: ACCEPT_OK,
        t,
        server,
        ballot,
        ..Message::default()
    }
}

pub fn commit_ok(t: u32, server: u32, ran: u32) -> Message
    ensures { result ≡ commit_ok t server ran }
{
    Message {
        code: COMMIT_OK,
        t,
        server,
        ran,
        ..Message::default()
    }
}

pub fn prepare_ok(
    t: u32,
    server: u32,
    ballot: u32,
    arrival: MaybeWord,
    accepted: MaybeVote,
) -> Message
    ensures { result ≡ prepare_ok t server ballot arrival accepted }
{
    Message {
        code: PREPARE_OK,
        t,
        server,
        ballot,
        arrival,
        accepted,
        ..Message::default()
    }
}

pub fn done(t: u32, pieces: Pieces, set: Set) -> Message
    ensures { result ≡ done t pieces set }
{
    Message {
        code: DONE,
        t,
        pieces,
        set,
        ..Message::default()
    }
}

pub fn behind(t: u32, server: u32, asked: u32, promise: u32) -> Message
    ensures { result ≡ behind t server asked promise }
{
    Message {
        code: BEHIND,
        t,
        server,
        ballot: asked,
        promise,
        ..Message::default()
    }
}

pub fn not_yet(t: u32, server: u32) -> Message
    ensures { result ≡ not_yet t server }
{
    Message {
        code: NOT_YET,
        t,
        server,
        ..Message::default()
    }
}

pub fn results(t: u32, server: u32, values: Values) -> Message
    ensures { result ≡ results t server values }
{
    Message {
        code: RESULTS,
        t,
        server,
        values,
        ..Message::default()
    }
}
