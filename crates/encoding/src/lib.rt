// A message, built by its sections in a cleared buffer, each in the part after the last, and then copied to the output. What is refused is known before.
#![tactic(auto)]

ghost use Rattle.std.specs.Prelude.{◌≡◌, false, ◌&&◌, true, ◌+◌, ◌≤◌, ◌<◌, ◌^◌, ltb, length, take, MatchResult};
ghost use Rattle.rules.specs.Flags.{there};
ghost use Rattle.rules.specs.Values.{no_values};
ghost use Rattle.xdr.specs.Over.{over, Put};
ghost use Rattle.xdr.specs.Form.{when};
ghost use Rattle.xdr.proofs.Windows.{cost};
ghost use Rattle.wire.specs.Parts.{pieces, values};
ghost use Rattle.encoding.specs.Sections.{front, front_length, cat};
ghost use Rattle.encoding.specs.ByKind.{asked_shape, answered_shape, bare_sections, asked_sections, answered_sections};
ghost use Rattle.encoding.specs.Answers.{answer, sent, told_of};

use crate::shapes::{answered_shape, asked_shape};
use parts::item::{Item, put_if};
use rules::refusals::Refusal;
use rules::{Pieces, Values};
use wire::{Message, Shape};

pub mod shapes; // shapes.rt: the kinds of messages

// What a host is told: the refusal or 0, and how many bytes the message takes, 0 on a refusal.
#[repr(C)]
#[derive(Clone, Copy)]
pub struct Encoded {
    pub refusal: u32,
    pub length: u32,
}

impl From<Result<u32, Refusal>> for Encoded {
    ghost from_gives = { λ r e. e ≡ told_of r };

    fn from(outcome: Result<u32, Refusal>) -> Encoded {
        match outcome {
            Ok(length) => Encoded { refusal: 0, length },
            Err(refusal) => Encoded {
                refusal: u32::from(refusal),
                length: 0,
            },
        }
    }
}

// T, and what the shape has of server, ballot, promise and the count of what ran.
fn put_front(out: &mut [u8], at: usize, h: Shape, m: &Message) -> usize
    requires { at + length ((front h).put ((((m.now.t, m.now.server), m.now.ballot), m.now.promise), m.now.ran)) ≤ length out.old }
    ensures { Put at ((front h).put ((((m.now.t, m.now.server), m.now.ballot), m.now.promise), m.now.ran)) out.old result out.new }
{
    let a = m.t.put(out, at);
    let b = put_if(out, a, h.server, &m.server);
    let c = put_if(out, b, h.ballot, &m.ballot);
    let d = put_if(out, c, h.promise, &m.promise);
    put_if(out, d, h.ran, &m.ran)
}

// n bytes, or none.
pub fn cost(has: bool, n: usize) -> usize
    ensures { (result ≡ cost has n) × (result ≤ n) }
{
    if has {
        return n;
    }
    0
}

pub fn front_length(h: Shape) -> usize
    ensures { (result ≡ front_length h) × (result ≤ 20) }
{
    4 + cost(h.server, 4) + cost(h.ballot, 4) + cost(h.promise, 4) + cost(h.ran, 4)
}

// A count and the pieces.
fn pieces_length(p: &Pieces) -> usize
    requires { p.now.count ≤ 8 }
    ensures { (result ≡ length (pieces.put p.now)) × (result ≤ 132) }
{
    4 + p.list[..p.count as usize].len() * 16
}

// A count and the results, or none.
fn values_length(has: bool, v: &Values) -> usize
    requires { has ≡ true → v.now.count ≤ 8 }
    ensures { (result ≡ length ((when no_values values has).put v.now)) × (result ≤ 68) }
{
    if has {
        return 4 + v.list[..v.count as usize].len() * 8;
    }
    0
}

// An optional word, and an optional ballot and set.
fn prepared_length(m: &Message) -> usize
    ensures { (result ≡ (4 + cost (there m.now.arrival.some) 8) + (4 + cost (there m.now.accepted.some) 36)) × (result ≤ 52) }
{
    (4 + cost(m.arrival.some != 0, 8)) + (4 + cost(m.accepted.some != 0, 36))
}

// 14, before anything is built: the output has no room for n bytes.
#[inline(always)]
fn room(out: &[u8], n: usize) -> Result<(), Refusal>
    ensures { MatchResult result (λ _. n ≤ length out.now) (λ e. (length out.now < n) × (e ≡ Refusal.NoRoom)) }
{
    if out.len() < n {
        return Err(Refusal::NoRoom);
    }
    Ok(())
}

// The first n bytes of what was built, at the front of the output.
#[inline(always)]
fn send(out: &mut [u8], built: &[u8], n: usize) -> u32
    requires { (n ≤ length built.now) × (n ≤ length out.old) × (n < 2 ^ 32) }
    ensures length { result ≡ n }
    ensures bytes { out.new ≡ over (take n built.now) out.old }
{
    out[..n].copy_from_slice(&built[..n]);
    n as u32
}

// A code and T alone.
#[inline(always)]
pub fn bare(out: &mut [u8], m: &Message) -> Result<u32, Refusal>
    ensures { (told_of result ≡ answer (sent false (cat (bare_sections m.now.code m.now.t)) out.old))
        × (out.new ≡ (sent false (cat (bare_sections m.now.code m.now.t)) out.old).buffer) }
{
    room(out, 8)?;
    let mut buffer = [0u8; 176];
    let a = m.code.put(&mut buffer, 0);
    let n = m.t.put(&mut buffer, a);
    Ok(send(out, &buffer, n))
}

// Pieces, and a ballot before them, a set after them or both.
#[inline(never)]
pub fn asked(out: &mut [u8], m: &Message) -> Result<u32, Refusal>
    ensures { (told_of result ≡ answer (sent (ltb 8 m.now.pieces.count) (cat (asked_sections (asked_shape m.now.code) m.now.code m.now.t m.now.ballot m.now.pieces.list m.now.pieces.count m.now.set)) out.old))
        × (out.new ≡ (sent (ltb 8 m.now.pieces.count) (cat (asked_sections (asked_shape m.now.code) m.now.code m.now.t m.now.ballot m.now.pieces.list m.now.pieces.count m.now.set)) out.old).buffer) }
{
    if 8 < m.pieces.count {
        return Err(Refusal::Unknown);
    }
    let h = asked_shape(m.code);
    let entries = pieces_length(&m.pieces);
    room(out, 4 + front_length(h) + entries + cost(h.set, 32))?;
    let mut buffer = [0u8; 176];
    let a = m.code.put(&mut buffer, 0);
    let b = put_front(&mut buffer, a, h, m);
    let c = m.pieces.put(&mut buffer, b);
    let n = put_if(&mut buffer, c, h.set, &m.set);
    Ok(send(out, &buffer, n))
}

// A server, and what it answers.
#[inline(never)]
pub fn answered(out: &mut [u8], m: &Message) -> Result<u32, Refusal>
    ensures { (told_of result ≡ answer (sent ((answered_shape m.now.code).values && ltb 8 m.now.values.count) (cat (answered_sections (answered_shape m.now.code) m.now.code m.now.t m.now.server m.now.ballot m.now.promise m.now.ran m.now.word m.now.arrival m.now.accepted m.now.values)) out.old))
        × (out.new ≡ (sent ((answered_shape m.now.code).values && ltb 8 m.now.values.count) (cat (answered_sections (answered_shape m.now.code) m.now.code m.now.t m.now.server m.now.ballot m.now.promise m.now.ran m.now.word m.now.arrival m.now.accepted m.now.values)) out.old).buffer) }
{
    let h = answered_shape(m.code);
    if h.values & (8 < m.values.count) {
        return Err(Refusal::Unknown);
    }
    let prepared = cost(h.prepared, prepared_length(m));
    let entries = values_length(h.values, &m.values);
    room(
        out,
        4 + front_length(h) + cost(h.word, 8) + prepared + entries,
    )?;
    let mut buffer = [0u8; 176];
    let a = m.code.put(&mut buffer, 0);
    let b = put_front(&mut buffer, a, h, m);
    let c = put_if(&mut buffer, b, h.word, &m.word);
    let d = put_if(&mut buffer, c, h.prepared, &(m.arrival, m.accepted));
    let n = put_if(&mut buffer, d, h.values, &m.values);
    Ok(send(out, &buffer, n))
}
