// Case G and examples of the piece rules, of conflicts and of rule 3, each computed by the library: a line each.
#![tactic(auto)]

use rules::refusals::{Refusal, told};
use rules::{Ballot, NextBallot, Piece, Pieces};
use std::io;
use std::io::Print;

// `next c n:`, then the refusal and the ballot.
fn next(rt: &impl Print, c: u32, n: u32) -> io::Result<()> {
    let b = NextBallot::from(Ballot::next(c, n));
    println!(rt; "next {c} {n}: {} {}", b.refusal, b.ballot)
}

// A line's name, and a number.
fn line(rt: &impl Print, name: &str, n: u64) -> io::Result<()> {
    println!(rt; "{name}: {n}")
}

// The refusal that the pieces get by themselves: 12, 2 or none.
fn judge(ps: Pieces) -> Result<(), Refusal> {
    if transaction::too_many(ps) {
        return Err(Refusal::Unknown);
    }
    if transaction::pieces_kept(ps) {
        Ok(())
    } else {
        Err(Refusal::BadPieces)
    }
}

fn refusal(ps: Pieces) -> u64 {
    u64::from(told(judge(ps)))
}

fn piece(shard: u32, key: u32, kind: u32, operand: i32) -> Piece {
    Piece {
        shard,
        key,
        kind,
        operand,
    }
}

fn counted(p: Piece, q: Piece, count: u32) -> Pieces {
    let mut list = [p; 8];
    list[1] = q;
    Pieces { list, count }
}

fn one(p: Piece) -> Pieces {
    counted(p, p, 1)
}

fn two(p: Piece, q: Piece) -> Pieces {
    counted(p, q, 2)
}

// Eight rising pieces, all of them counted or more than there are.
fn rising(count: u32) -> Pieces {
    let list = [
        piece(0, 0, 1, 7),
        piece(0, 1, 2, -7),
        piece(1, 0, 0, 0),
        piece(1, 15, 1, 0),
        piece(2, 3, 2, 1),
        piece(2, 4, 2, 1),
        piece(3, 0, 0, 0),
        piece(3, 15, 1, 2147483647),
    ];
    Pieces { list, count }
}

fn ballots(rt: &impl Print) -> io::Result<()> {
    next(rt, 0, 0)?;
    next(rt, 3, 8)?;
    next(rt, 2, 65529)?;
    next(rt, 2, 65530)?;
    next(rt, 8, 0)?;
    next(rt, 4294967295, 4294967295)?;
    next(rt, 7, 4294967295)?;
    next(rt, 7, 65527)
}

fn good(rt: &impl Print) -> io::Result<()> {
    line(rt, "read", refusal(one(piece(0, 3, 0, 0))))?;
    line(rt, "put", refusal(one(piece(3, 15, 1, -2147483648))))?;
    line(rt, "eight rising", refusal(rising(8)))?;
    line(
        rt,
        "two keys",
        refusal(two(piece(0, 3, 1, 5), piece(0, 4, 2, 2))),
    )?;
    line(
        rt,
        "two shards",
        refusal(two(piece(0, 15, 1, 5), piece(1, 0, 2, 2))),
    )
}

fn bad(rt: &impl Print) -> io::Result<()> {
    line(rt, "empty", refusal(rising(0)))?;
    line(rt, "nine", refusal(rising(9)))?;
    line(rt, "count 4,294,967,295", refusal(rising(4294967295)))?;
    line(
        rt,
        "falling keys",
        refusal(two(piece(0, 4, 1, 5), piece(0, 3, 2, 2))),
    )?;
    line(
        rt,
        "falling shards",
        refusal(two(piece(1, 0, 1, 5), piece(0, 15, 2, 2))),
    )?;
    line(
        rt,
        "equal places",
        refusal(two(piece(1, 1, 1, 5), piece(1, 1, 2, 2))),
    )?;
    line(rt, "shard 4", refusal(one(piece(4, 0, 1, 5))))?;
    line(rt, "key 16", refusal(one(piece(0, 16, 1, 5))))?;
    line(rt, "kind 3", refusal(one(piece(0, 0, 3, 0))))?;
    line(rt, "read with operand 1", refusal(one(piece(0, 3, 0, 1))))?;
    line(rt, "read with operand -1", refusal(one(piece(0, 3, 0, -1))))?;
    line(
        rt,
        "shard 4,000,000,000",
        refusal(one(piece(4000000000, 0, 1, 5))),
    )?;
    line(
        rt,
        "key 4,294,967,295",
        refusal(two(piece(0, 3, 1, 5), piece(0, 4294967295, 1, 5))),
    )
}

fn conflict(a: Pieces, b: Pieces) -> u64 {
    transaction::conflicts::conflict(0, a, b) as u64
}

fn conflicts(rt: &impl Print) -> io::Result<()> {
    let read = piece(0, 3, 0, 0);
    let put = piece(0, 3, 1, 5);
    let add = piece(0, 3, 2, 2);
    let elsewhere = piece(1, 3, 1, 5);
    line(
        rt,
        "put and add of a key conflict",
        conflict(one(put), one(add)),
    )?;
    line(
        rt,
        "read and put of a key conflict",
        conflict(one(read), one(put)),
    )?;
    line(
        rt,
        "two reads of a key conflict",
        conflict(one(read), one(read)),
    )?;
    line(
        rt,
        "puts of two keys conflict",
        conflict(one(put), one(piece(0, 4, 1, 5))),
    )?;
    line(
        rt,
        "puts on another shard conflict",
        conflict(one(elsewhere), one(elsewhere)),
    )?;
    line(
        rt,
        "pieces behind the count conflict",
        conflict(counted(read, put, 1), one(read)),
    )?;
    line(
        rt,
        "shards of (0,3), (1,0)",
        transaction::shards_of(two(put, piece(1, 0, 1, 5))),
    )
}

fn main(rt: HostRuntime) -> io::Result<()> {
    ballots(&rt)?;
    good(&rt)?;
    bad(&rt)?;
    conflicts(&rt)
}
