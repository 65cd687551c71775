// A message that is exactly as long as its code and its count say: each field is read where it stands, and no fault is looked for.
// What is not as long, or of another kind, is left to `decoding`.
ghost use Rattle.std.specs.Prelude.{◌≡◌, true, ℕ, ◌++◌, ◌+◌, ◌*◌, ◌-◌, ◌≤◌, length, replicate, IfSome};
ghost use Rattle.rules.specs.Pieces.{no_piece};
ghost use Rattle.xdr.proofs.Windows.{cost};
ghost use Rattle.xdr.specs.Form.{many-get, when};
ghost use Rattle.xdr.specs.Reading.{Reads, clean};
ghost use Rattle.wire.specs.Parts.{piece};
ghost use Rattle.wire.specs.Bytes.{decode};
ghost use Rattle.codec.specs.Exact.{is_bare, ExactAsked, ExactAnswered};

use encoding::shapes::{answered, answered_shape, asked, asked_shape, bare};
use encoding::{cost, front_length};
use messages::plain;
use parts::item::Item;
use rules::{Piece, Pieces, Set};
use wire::Decoded;
use xdr::{hyper_at, word_at};

// An item that is as long whatever it says, and that any bytes say.
trait Fixed: Item {
    ghost width: { ℕ };

    fn at(s: &[u8], at: usize) -> Self
        requires { at + width ≤ length s.now }
        ensures { Reads Self.form s.now (clean at) result (clean (at + width)) };
}

impl Fixed for u32 {
    ghost width = { 4 };

    fn at(s: &[u8], at: usize) -> u32 {
        word_at(s, at)
    }
}

impl Fixed for u64 {
    ghost width = { 8 };

    fn at(s: &[u8], at: usize) -> u64 {
        hyper_at(s, at)
    }
}

impl Fixed for Set {
    ghost width = { 32 };

    fn at(s: &[u8], at: usize) -> Set {
        Set {
            w0: hyper_at(s, at),
            w1: hyper_at(s, at + 8),
            w2: hyper_at(s, at + 16),
            w3: hyper_at(s, at + 24),
        }
    }
}

impl Fixed for Piece {
    ghost width = { 16 };

    fn at(s: &[u8], at: usize) -> Piece {
        Piece {
            shard: word_at(s, at),
            key: word_at(s, at + 4),
            kind: word_at(s, at + 8),
            operand: word_at(s, at + 12).cast_signed(),
        }
    }
}

fn at_if<T: Fixed>(s: &[u8], at: usize, has: bool) -> T
    requires { at + cost has T.width ≤ length s.now }
    ensures { Reads (when T.blank T.form has) s.now (clean at) result (clean (at + cost has T.width)) }
{
    if has {
        return T::at(s, at);
    }
    T::default()
}

fn list_at(s: &[u8], at: usize, n: usize) -> [Piece; 8]
    requires { (n ≤ 8) × (at + n * 16 ≤ length s.now) }
    ensures { (result ≡ (many-get piece n s.now (clean at)).v ++ replicate (8 - n) no_piece) × (clean (at + n * 16) ≡ (many-get piece n s.now (clean at)).next) }
{
    let mut list = [Piece::default(); 8];
    let mut next = at;
    for entry in &mut list[..n] {
        *entry = Piece::at(s, next);
        next += 16;
    }
    list
}

// Eight bytes that say a code which has nothing beside T.
pub fn is_bare(bytes: &[u8]) -> bool
    ensures { result ≡ is_bare bytes.now }
{
    if bytes.len() != 8 {
        return false;
    }
    bare(word_at(bytes, 0))
}

pub fn read_bare(bytes: &[u8]) -> Decoded
    requires { is_bare bytes.now ≡ true }
    ensures { result ≡ decode bytes.now }
{
    let code = word_at(bytes, 0);
    let t = word_at(bytes, 4);
    Decoded {
        refusal: 0,
        message: plain(code, t, 0, 0, 0),
    }
}

// A message with pieces: its code, where its count stands, and the count.
#[derive(Clone, Copy)]
pub struct Asked {
    pub code: u32,
    pub at: usize,
    pub count: u32,
}

// What the bytes say, if they are as many as it says.
pub fn see_asked(bytes: &[u8]) -> Option<Asked>
    ensures { IfSome result (λ x. ExactAsked bytes.now x.code x.at x.count) }
{
    let n = bytes.len();
    if n < 16 {
        return None;
    }
    let code = word_at(bytes, 0);
    let h = asked_shape(code);
    let at = 8 + cost(h.ballot, 4);
    let count = word_at(bytes, at);
    let all = at + (4 + count as usize * 16) + cost(h.set, 32);
    if asked(code) & (count <= 8) & (n == all) {
        return Some(Asked { code, at, count });
    }
    None
}

pub fn read_asked(bytes: &[u8], seen: Asked) -> Decoded
    requires { ExactAsked bytes.now seen.code seen.at seen.count }
    ensures { result ≡ decode bytes.now }
{
    let t = word_at(bytes, 4);
    let h = asked_shape(seen.code);
    let ballot = at_if::<u32>(bytes, 8, h.ballot);
    let k = seen.count as usize;
    let list = list_at(bytes, seen.at + 4, k);
    let set = at_if::<Set>(bytes, seen.at + (4 + k * 16), h.set);
    let mut message = plain(seen.code, t, 0, ballot, 0);
    message.pieces = Pieces {
        list,
        count: seen.count,
    };
    message.set = set;
    Decoded {
        refusal: 0,
        message,
    }
}

// A server's answer without results and without what it accepted: its code, if the bytes are as many as it says.
pub fn see_answered(bytes: &[u8]) -> Option<u32>
    ensures { IfSome result (λ k. ExactAnswered bytes.now k) }
{
    let n = bytes.len();
    if n < 12 {
        return None;
    }
    let code = word_at(bytes, 0);
    let h = answered_shape(code);
    let other = asked(code) | h.prepared | h.values;
    let all = 4 + front_length(h) + cost(h.word, 8);
    if answered(code) & !other & (n == all) {
        return Some(code);
    }
    None
}

pub fn read_answered(bytes: &[u8], code: u32) -> Decoded
    requires { ExactAnswered bytes.now code }
    ensures { result ≡ decode bytes.now }
{
    let t = word_at(bytes, 4);
    let server = word_at(bytes, 8);
    let h = answered_shape(code);
    let ballot = at_if::<u32>(bytes, 12, h.ballot);
    let b = 12 + cost(h.ballot, 4);
    let promise = at_if::<u32>(bytes, b, h.promise);
    let p = b + cost(h.promise, 4);
    let ran = at_if::<u32>(bytes, p, h.ran);
    let n = p + cost(h.ran, 4);
    let word = at_if::<u64>(bytes, n, h.word);
    let mut message = plain(code, t, server, ballot, promise);
    message.word = word;
    message.ran = ran;
    Decoded {
        refusal: 0,
        message,
    }
}
