// The kinds of messages, by what they have beside the code and T.
ghost use Rattle.std.specs.Prelude.{◌≡◌};
ghost use Rattle.encoding.specs.Sections.{long};
ghost use Rattle.encoding.specs.ByKind.{bare, asked, answered, asked_shape, answered_shape};

use messages::codes::{
    ACCEPT, ACCEPT_OK, BEHIND, COMMIT, COMMIT_OK, DONE, FETCH, INQUIRE, PRE_ACCEPT_OK, PREPARE,
    PREPARE_OK, RESULTS,
};
use wire::Shape;

// Anything but T, server, ballot, promise and the count of what ran.
#[tactic(auto, unfolding(crate::specs::Sections::long))]
pub fn has_rest(h: Shape) -> bool
    ensures { result ≡ long h }
{
    h.pieces | h.set | h.word | h.prepared | h.values
}

// Nothing.
pub fn bare(code: u32) -> bool
    ensures { result ≡ bare code }
{
    (code == INQUIRE) | (code == FETCH)
}

// Pieces, and a ballot before them, a set after them or both.
pub fn asked(code: u32) -> bool
    ensures { result ≡ asked code }
{
    (code <= PREPARE) | (code == DONE)
}

// A server and what it answers. Done, whose code is among these, has pieces.
pub fn answered(code: u32) -> bool
    ensures { result ≡ answered code }
{
    (PRE_ACCEPT_OK <= code) & (code <= RESULTS)
}

pub fn asked_shape(code: u32) -> Shape
    ensures { result ≡ asked_shape code }
{
    let commits = (code == COMMIT) | (code == DONE);
    Shape {
        known: true,
        server: false,
        ballot: !commits,
        promise: false,
        ran: false,
        pieces: true,
        set: (code == ACCEPT) | commits,
        word: false,
        prepared: false,
        values: false,
    }
}

pub fn answered_shape(code: u32) -> Shape
    ensures { result ≡ answered_shape code }
{
    Shape {
        known: true,
        server: true,
        ballot: (code <= ACCEPT_OK) | (code == PREPARE_OK) | (code == BEHIND),
        promise: code == BEHIND,
        ran: code == COMMIT_OK,
        pieces: false,
        set: false,
        word: code == PRE_ACCEPT_OK,
        prepared: code == PREPARE_OK,
        values: code == RESULTS,
    }
}
