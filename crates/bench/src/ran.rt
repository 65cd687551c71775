// The cases of a server that runs: D, E and F, in which a Commit runs what is ready.
use crate::exchange::{after, answers, server0};
use crate::feed::{add2, piece, two, words};
use messages::asks::commit;
use messages::replies::commit_ok;
use rules::{Pieces, Set};
use server::Server;
use station::servers::{
    drobulets_server_counter, drobulets_server_log, drobulets_server_run, drobulets_server_wanted,
};

// T8 of D: put 5 into a counter of shard 0 and one of shard 1.
fn put55() -> Pieces {
    two(piece(0, 3, 1, 5), piece(1, 0, 1, 5))
}

// T1 of D: add 2 to both.
fn add22() -> Pieces {
    two(piece(0, 3, 2, 2), piece(1, 0, 2, 2))
}

// T8 alone is committed, with T1 in its word 1.
fn eight() -> Server {
    after(server0(), commit(8, put55(), words(0, 2)))
}

// The log has this number at this place.
fn logged(s: Server, place: u32, number: u32) -> bool {
    let e = drobulets_server_log(&s, place);
    (e.some == 1) & (e.number == number)
}

// The log ends before this place.
fn unlogged(s: Server, place: u32) -> bool {
    let e = drobulets_server_log(&s, place);
    e.some == 0
}

// Nothing is left to run.
fn rests(s: Server) -> bool {
    let mut server = s;
    let r = drobulets_server_run(&mut server);
    (r.refusal == 0) & (r.many == 0)
}

// Commit 8 answers 0, Commit 1 answers 2.
pub fn case_d() -> bool {
    let waits = answers(
        server0(),
        commit(8, put55(), words(0, 2)),
        commit_ok(8, 0, 0),
    );
    let s = eight();
    let both = answers(s, commit(1, add22(), words(256, 0)), commit_ok(1, 0, 2));
    let n = after(s, commit(1, add22(), words(256, 0)));
    let third = drobulets_server_counter(&n, 3);
    waits
        & both
        & logged(n, 0, 1)
        & logged(n, 1, 8)
        & unlogged(n, 2)
        & (third.some == 1)
        & (third.value == 5)
        & rests(n)
}

// The Commit answers 0, and the other is wanted.
pub fn case_e() -> bool {
    let waits = answers(
        server0(),
        commit(8, put55(), words(0, 2)),
        commit_ok(8, 0, 0),
    );
    let n = eight();
    let w = drobulets_server_wanted(&n);
    waits & unlogged(n, 0) & rests(n) & (w.refusal == 0) & (w.set == words(0, 2))
}

// The Commits answer 1 and 1.
pub fn case_f() -> bool {
    let first = answers(
        server0(),
        commit(1, add2(), Set::default()),
        commit_ok(1, 0, 1),
    );
    let s = after(server0(), commit(1, add2(), Set::default()));
    let second = answers(s, commit(2, add2(), words(2, 0)), commit_ok(2, 0, 1));
    let t = after(s, commit(2, add2(), words(2, 0)));
    first & second & rests(t)
}
