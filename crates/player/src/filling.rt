// Bytes are kept until what is read is whole.
ghost use Rattle.std.specs.Prelude.{◌≡◌, ◌+◌, ◌≤◌, min, length};
ghost use Rattle.std.proofs.Math.Seq.{paste};
ghost use Rattle.player.specs.Replay.{next};
ghost use Rattle.player.specs.Walking.{WINDOW, begun, going, takes, keeps, filled, reads, after_header, after_head, turned, whole, after_data};

use crate::{DATA, HEADS, OPENING, OVER, Walk};
use capture::pcap::{HEAD, HEADER};

// A destination, the longest message, and a byte more.
const WINDOW: usize = 181;

// At the front of a file.
#[tactic(auto, unfolding(crate::specs::Walking::begun))]
pub fn begun() -> Walk
    ensures { result ≡ begun }
{
    Walk {
        phase: OPENING,
        little: false,
        number: 1,
        seconds: 0,
        left: 24,
        have: 0,
        kept: [0; 181],
    }
}

// There is more to read.
#[tactic(auto, unfolding(crate::specs::Walking::going))]
pub fn going(w: Walk) -> bool
    ensures { result ≡ going w }
{
    w.phase < OVER && 0 < w.left && w.have <= WINDOW
}

// How many of the bytes are of what is read.
#[tactic(auto, unfolding(crate::specs::Walking::takes))]
pub fn takes(w: Walk, xs: &[u8]) -> usize
    ensures { result ≡ takes w xs.now }
{
    (w.left as usize).min(xs.len())
}

// The window, with the first `n` bytes at a place.
fn pasted(kept: [u8; 181], at: usize, xs: &[u8], n: usize) -> [u8; 181]
    requires { (at + n ≤ 181) × (n ≤ length xs.now) }
    ensures { result ≡ paste kept at xs.now n }
{
    let mut to = kept;
    to[at..at + n].copy_from_slice(&xs[..n]);
    to
}

// The bytes are kept, as far as the window has room.
#[tactic(auto, unfolding(crate::specs::Walking::takes, crate::specs::Walking::filled, crate::specs::Walking::keeps))]
fn filled(w: Walk, xs: &[u8]) -> Walk
    requires { w.have ≤ WINDOW }
    ensures { result ≡ filled w xs.now }
{
    let left = w.left;
    let k = takes(w, xs);
    let at = w.have;
    let n = k.min(WINDOW - at);
    let old = w.kept;
    let kept = pasted(old, at, xs, n);
    Walk {
        left: left - k as u32,
        have: at + n,
        kept,
        ..w
    }
}

fn reads(w: Walk, phase: u32, little: bool, number: u64, seconds: u32, left: u32) -> Walk
    ensures { result ≡ reads w phase little number seconds left }
{
    Walk {
        phase,
        little,
        number,
        seconds,
        left,
        have: 0,
        ..w
    }
}

// The header is whole.
#[tactic(auto, unfolding(crate::specs::Walking::after_header))]
fn after_header(w: Walk) -> Walk
    ensures { result ≡ after_header w }
{
    let kept = w.kept;
    let h = capture::pcap::header(&kept[..HEADER]);
    if h.good {
        reads(w, HEADS, h.little, w.number, 0, 16)
    } else {
        reads(w, OVER, false, w.number, 0, 0)
    }
}

// A record's head is whole.
#[tactic(auto, unfolding(crate::specs::Walking::after_head))]
fn after_head(w: Walk) -> Walk
    ensures { result ≡ after_head w }
{
    let kept = w.kept;
    let h = capture::pcap::head(w.little, &kept[..HEAD]);
    reads(w, DATA, w.little, w.number, h.seconds, h.captured)
}

#[tactic(auto, unfolding(crate::specs::Walking::turned))]
fn turned(w: Walk) -> Walk
    ensures { result ≡ turned w }
{
    if 0 < w.left {
        return w;
    }
    match w.phase {
        OPENING => after_header(w),
        HEADS => after_head(w),
        _ => w,
    }
}

// The bytes are kept; and where that makes a header or a head whole, what follows it is read.
pub fn bitten(w: Walk, xs: &[u8]) -> Walk
    requires { w.have ≤ WINDOW }
    ensures is { result ≡ turned (filled w xs.now) }
    ensures within { result.have ≤ WINDOW }
{
    turned(filled(w, xs))
}

// A record's data is whole.
#[tactic(auto, unfolding(crate::specs::Walking::whole))]
pub fn whole(w: Walk) -> bool
    ensures { result ≡ whole w }
{
    w.phase == DATA && w.left == 0
}

// The next record's head is read.
#[tactic(auto, unfolding(crate::specs::Walking::after_data, crate::specs::Replay::next))]
pub fn after_data(w: Walk) -> Walk
    ensures { result ≡ after_data w }
{
    let number = std::num::wrapping_add_u64(w.number, 1);
    reads(w, HEADS, w.little, number, 0, 16)
}
