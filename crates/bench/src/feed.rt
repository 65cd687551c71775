// Pieces and sets to feed, and what a set is held against.
use rules::{Piece, Pieces, Set};

pub fn piece(shard: u32, key: u32, kind: u32, operand: i32) -> Piece {
    Piece {
        shard,
        key,
        kind,
        operand,
    }
}

pub fn one(p: Piece) -> Pieces {
    let mut pieces = Pieces::default();
    pieces.list[0] = p;
    pieces.count = 1;
    pieces
}

pub fn two(p: Piece, q: Piece) -> Pieces {
    let mut pieces = one(p);
    pieces.list[1] = q;
    pieces.count = 2;
    pieces
}

// T8 of the cases A to C: put 5 into counter 3 of shard 0.
pub fn put5() -> Pieces {
    one(piece(0, 3, 1, 5))
}

// T1 of the cases A to C: add 2 to it.
pub fn add2() -> Pieces {
    one(piece(0, 3, 2, 2))
}

// A set with word 0 and word 1.
pub fn words(w0: u64, w1: u64) -> Set {
    Set {
        w0,
        w1,
        ..Set::default()
    }
}
