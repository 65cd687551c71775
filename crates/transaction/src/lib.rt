// A transaction's pieces: rule 2, the shards that they touch, and whether two have the same.
#![tactic(auto)]

ghost use Rattle.std.specs.Prelude.{◌≡◌, cond, ◌&&◌, ◌+◌, ◌<◌, ◌≤◌, ltb};
ghost use Rattle.masks.specs.Bits.{insert};
ghost use Rattle.rules.specs.Cluster.{NUMBERS, PIECES};
ghost use Rattle.rules.specs.Pieces.{place, piece_kept, pieces_kept, too_many, any_pieces, used, on_shard, touches, shards_of, touched_by, pieces_on, same_piece, same_pieces};

use rules::cluster::{KEYS, KINDS, PIECES, SHARDS};
use rules::kinds::Kind;
use rules::{Piece, Pieces};

pub mod conflicts; // conflicts.rt: which transactions conflict at a shard

// Where a piece stands in the order of pieces.
pub fn place(p: Piece) -> u64
    ensures { result ≡ place p }
{
    (KEYS as u64) * (p.shard as u64) + (p.key as u64)
}

// The rule of one piece by itself.
pub fn piece_kept(p: Piece) -> bool
    ensures { result ≡ piece_kept p }
{
    (p.shard < SHARDS)
        & (p.key < KEYS)
        & (p.kind < KINDS)
        & (Kind::from(p.kind).writes() | (p.operand == 0))
}

// The shards that pieces touch, as a word; 0 where they break rule 2. Whoever keeps it touches a shard.
pub fn touched(ps: Pieces) -> u64
    ensures { result ≡ touched_by ps }
{
    let n = ps.count as usize;
    let enough = (1 <= n) & (n <= PIECES);
    if !enough {
        return 0;
    }
    let mut kept = true;
    let mut last: u64 = 0;
    let mut word: u64 = 0;
    for i in 0..n {
        let p = ps.list[i];
        let at = place(p);
        let entry = piece_kept(p) & ((i == 0) | (last < at));
        kept = kept & entry;
        word = put_below(word, SHARDS, p.shard, true);
        last = at;
    }
    if kept { word } else { 0 }
}

// Rule 2 is kept.
pub fn pieces_kept(ps: Pieces) -> bool
    ensures { result ≡ pieces_kept ps }
{
    !masks::is_empty(touched(ps))
}

pub fn too_many(ps: Pieces) -> bool
    ensures { result ≡ too_many ps }
{
    (PIECES as u32) < ps.count
}

// Pieces are held, or none.
pub fn any_pieces(ps: Pieces) -> bool
    ensures { result ≡ any_pieces ps }
{
    ps.count != 0
}

// Piece `i` is there, and on shard `k`.
#[tactic(auto, unfolding(rules::specs::Pieces::on_shard))]
pub fn on_shard(ps: Pieces, k: u32, i: usize) -> bool
    requires { i < PIECES }
    ensures { result ≡ on_shard ps k i }
{
    let p = ps.list[i];
    (i < ps.count as usize) & (p.shard == k)
}

// The transaction touches shard `k`.
pub fn touches(ps: Pieces, k: u32) -> bool
    ensures { result ≡ touches ps k }
{
    let mut hit = false;
    for i in 0..PIECES {
        hit = hit | on_shard(ps, k, i);
    }
    hit
}

// One more where `b` says so.
fn counted(many: u32, b: bool) -> u32
    requires { many < PIECES }
    ensures { result ≡ cond b (many + 1) many }
{
    if b { many + 1 } else { many }
}

// How many of the places of pieces are in use.
#[tactic(auto, unfolding(rules::specs::Pieces::used))]
pub fn used(count: u32) -> usize
    ensures { result ≡ used count }
{
    PIECES.min(count as usize)
}

// How many pieces the transaction has on shard `k`.
pub fn pieces_on(ps: Pieces, k: u32) -> u32
    ensures { result ≡ pieces_on ps k }
{
    let n = used(ps.count);
    let mut many: u32 = 0;
    for i in 0..n {
        let p = ps.list[i];
        many = counted(many, p.shard == k);
    }
    many
}

// w and, where `b` says so and `t` is below `n`, t.
pub fn put_below(w: u64, n: u32, t: u32, b: bool) -> u64
    requires { n ≤ NUMBERS }
    ensures { result ≡ cond (b && ltb t n) (insert w t) w }
{
    let there = b & (t < n);
    if there {
        masks::insert(w, t as usize)
    } else {
        w
    }
}

// The shards that the transaction touches, as a word.
pub fn shards_of(ps: Pieces) -> u64
    ensures { result ≡ shards_of ps }
{
    let n = ps.count as usize;
    let mut touched: u64 = 0;
    for i in 0..PIECES {
        let p = ps.list[i];
        touched = put_below(touched, SHARDS, p.shard, i < n);
    }
    touched
}

#[tactic(auto, unfolding(rules::specs::Pieces::same_int, rules::specs::Pieces::same_piece))]
pub fn same_piece(p: Piece, q: Piece) -> bool
    ensures { result ≡ same_piece p q }
{
    p == q
}

// The same pieces, up to their counts.
pub fn same_pieces(a: Pieces, b: Pieces) -> bool
    ensures { result ≡ same_pieces a b }
{
    let unequal = a.count != b.count;
    if unequal {
        return false;
    }
    let n = a.count as usize;
    let mut same = true;
    for i in 0..PIECES {
        let p = a.list[i];
        let q = b.list[i];
        same = same & ((n <= i) | same_piece(p, q));
    }
    same
}
