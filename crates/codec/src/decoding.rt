// A message, read: the header, the front, and the rest where the code has some of it.
ghost use Rattle.std.specs.Prelude.{◌≡◌, leb};
ghost use Rattle.xdr.specs.Read.{judged};
ghost use Rattle.xdr.specs.Reading.{Reads};
ghost use Rattle.wire.specs.Messages.{blank};
ghost use Rattle.wire.specs.Bytes.{code, ended, decoded_as, decode};
ghost use Rattle.encoding.specs.Sections.{front, rest, no_rest, joined};

use encoding::shapes::has_rest;
use messages::codes::shape_of;
use messages::{blank, plain};
use parts::item::get_if;
use rules::{MaybeVote, MaybeWord, Pieces, Set, Values};
use wire::{Decoded, Message, Shape};
use xdr::{Cursor, Got};

// The header is the code alone: 12 where no message has it, and the value is then 0.
fn get_header(s: &[u8], c: Cursor) -> Got<u32>
    ensures { Reads code s.now c result.v result.next }
{
    let a = xdr::get_u32(s, c);
    let k = a.v;
    let known = shape_of(k).known;
    let next = xdr::judge(known, 12, a.next);
    if known {
        return Got { v: k, next };
    }
    Got { v: 0, next }
}

#[derive(Clone, Copy)]
struct Front {
    pub t: u32,
    pub server: u32,
    pub ballot: u32,
    pub promise: u32,
    pub ran: u32,
}

fn get_front(s: &[u8], c: Cursor, h: Shape) -> Got<Front>
    ensures { Reads (front h) s.now c ((((result.v.t, result.v.server), result.v.ballot), result.v.promise), result.v.ran) result.next }
{
    let t = xdr::get_u32(s, c);
    let server = get_if::<u32>(h.server, s, t.next);
    let ballot = get_if::<u32>(h.ballot, s, server.next);
    let promise = get_if::<u32>(h.promise, s, ballot.next);
    let ran = get_if::<u32>(h.ran, s, promise.next);
    let v = Front {
        t: t.v,
        server: server.v,
        ballot: ballot.v,
        promise: promise.v,
        ran: ran.v,
    };
    Got { v, next: ran.next }
}

// The first fault, of n bytes that were read up to a cursor: 11 where bytes are left and nothing else was found.
fn fault_of(n: usize, c: Cursor) -> u32
    ensures { result ≡ (judged (leb n c.at) 11 c).fault }
{
    xdr::judge(n <= c.at, 11, c).fault
}

fn refused(refusal: u32) -> Decoded
    ensures { result ≡ record { refusal = refusal; message = blank } }
{
    Decoded {
        refusal,
        message: blank(),
    }
}

// A message that ends with its front.
fn short_message(n: usize, k: u32, f: Front, next: Cursor) -> Decoded
    ensures { result ≡ decoded_as (joined k ((((f.t, f.server), f.ballot), f.promise), f.ran) no_rest) (judged (leb n next.at) 11 next) }
{
    let fault = fault_of(n, next);
    if fault != 0 {
        return refused(fault);
    }
    let mut message = plain(k, f.t, f.server, f.ballot, f.promise);
    message.ran = f.ran;
    Decoded {
        refusal: 0,
        message,
    }
}

// A message that has some of the rest behind its front.
fn long_message(s: &[u8], k: u32, f: Front, c: Cursor, h: Shape) -> Decoded
    ensures { result ≡ decoded_as (joined k ((((f.t, f.server), f.ballot), f.promise), f.ran) ((rest h).get s.now c).v) (ended s.now ((rest h).get s.now c).next) }
{
    let pieces = get_if::<Pieces>(h.pieces, s, c);
    let set = get_if::<Set>(h.set, s, pieces.next);
    let word = get_if::<u64>(h.word, s, set.next);
    let prepared = get_if::<(MaybeWord, MaybeVote)>(h.prepared, s, word.next);
    let values = get_if::<Values>(h.values, s, prepared.next);
    let fault = fault_of(s.len(), values.next);
    if fault != 0 {
        return refused(fault);
    }
    let (arrival, accepted) = prepared.v;
    let message = Message {
        code: k,
        t: f.t,
        server: f.server,
        ballot: f.ballot,
        promise: f.promise,
        pieces: pieces.v,
        set: set.v,
        word: word.v,
        arrival,
        accepted,
        values: values.v,
        ran: f.ran,
    };
    Decoded {
        refusal: 0,
        message,
    }
}

pub fn decode(bytes: &[u8]) -> Decoded
    ensures { result ≡ decode bytes.now }
{
    let start = Cursor { at: 0, fault: 0 };
    let code = get_header(bytes, start);
    let h = shape_of(code.v);
    let f = get_front(bytes, code.next, h);
    if has_rest(h) {
        return long_message(bytes, code.v, f.v, f.next, h);
    }
    short_message(bytes.len(), code.v, f.v, f.next)
}
