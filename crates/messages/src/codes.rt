// The fields that a message has, by its code, and who takes which code.
ghost use Rattle.std.specs.Prelude.{◌≡◌};
ghost use Rattle.wire.specs.Codes.{shape_of, server_takes, drive_takes};

use wire::Shape;

pub const PRE_ACCEPT: u32 = 0;

pub const ACCEPT: u32 = 1;

pub const COMMIT: u32 = 2;

pub const PREPARE: u32 = 3;

pub const INQUIRE: u32 = 4;

pub const FETCH: u32 = 5;

pub const PRE_ACCEPT_OK: u32 = 16;

pub const ACCEPT_OK: u32 = 17;

pub const COMMIT_OK: u32 = 18;

pub const PREPARE_OK: u32 = 19;

pub const DONE: u32 = 20;

pub const BEHIND: u32 = 21;

pub const NOT_YET: u32 = 22;

pub const RESULTS: u32 = 23;

// Which fields a message with this code has: for each field, the codes that have it.
pub fn shape_of(code: u32) -> Shape
    ensures { result ≡ shape_of code }
{
    let asked = code <= FETCH;
    let answered = (PRE_ACCEPT_OK <= code) & (code <= RESULTS);
    let done = code == DONE;
    let prepared = code == PREPARE_OK;
    let word = code == PRE_ACCEPT_OK;
    let behind = code == BEHIND;
    let accept = code == ACCEPT;
    let commit = (code == COMMIT) | done;
    let asks = (code == PRE_ACCEPT) | accept | (code == PREPARE);
    Shape {
        known: asked | answered,
        server: answered & !done,
        ballot: asks | word | (code == ACCEPT_OK) | prepared | behind,
        promise: behind,
        ran: code == COMMIT_OK,
        pieces: asks | commit,
        set: accept | commit,
        word: word,
        prepared: prepared,
        values: code == RESULTS,
    }
}

// A server takes this code.
pub fn server_takes(code: u32) -> bool
    ensures { result ≡ server_takes code }
{
    (code <= FETCH) | (code == DONE)
}

// A drive takes this code.
pub fn drive_takes(code: u32) -> bool
    ensures { result ≡ drive_takes code }
{
    (code == PRE_ACCEPT_OK)
        | (code == ACCEPT_OK)
        | (code == PREPARE_OK)
        | (code == DONE)
        | (code == BEHIND)
}
