// The cases of a server that is asked: A, B, C, I and J.
use crate::exchange::{after, answers, refuses, server0};
use crate::feed::{add2, one, piece, put5, words};
use messages::asks::{accept, commit, pre_accept, prepare};
use messages::replies::{accept_ok, behind, pre_accept_ok, prepare_ok};
use rules::{MaybeVote, MaybeWord, Set};
use server::Server;

// Server 0 after the three messages of A.
fn after_a() -> Server {
    let s = after(server0(), pre_accept(8, 0, put5()));
    let t = after(s, pre_accept(1, 0, add2()));
    after(t, pre_accept(8, 0, put5()))
}

// Server 0 after B.
fn after_b() -> Server {
    let s = after(after_a(), prepare(8, 8, put5()));
    after(s, pre_accept(8, 0, put5()))
}

fn word(w: u64) -> MaybeWord {
    MaybeWord { some: 1, word: w }
}

pub fn case_a() -> bool {
    let s = server0();
    let first = answers(s, pre_accept(8, 0, put5()), pre_accept_ok(8, 0, 0, 0));
    let t = after(s, pre_accept(8, 0, put5()));
    let second = answers(t, pre_accept(1, 0, add2()), pre_accept_ok(1, 0, 0, 256));
    let u = after(t, pre_accept(1, 0, add2()));
    first & second & answers(u, pre_accept(8, 0, put5()), pre_accept_ok(8, 0, 0, 0))
}

pub fn case_b() -> bool {
    let s = after_a();
    let none = MaybeVote::default();
    let arrived = answers(s, prepare(8, 8, put5()), prepare_ok(8, 0, 8, word(0), none));
    let t = after(s, prepare(8, 8, put5()));
    arrived & answers(t, pre_accept(8, 0, put5()), behind(8, 0, 0, 8))
}

pub fn case_c() -> bool {
    let s = after_b();
    let taken = answers(s, accept(8, 8, put5(), Set::default()), accept_ok(8, 0, 8));
    let t = after(s, accept(8, 8, put5(), Set::default()));
    let again = answers(t, pre_accept(8, 8, put5()), pre_accept_ok(8, 0, 8, 0));
    let u = after(t, pre_accept(8, 8, put5()));
    let vote = MaybeVote {
        some: 1,
        ballot: 8,
        set: Set::default(),
    };
    taken & again & answers(u, prepare(8, 8, put5()), prepare_ok(8, 0, 8, word(0), vote))
}

pub fn case_i() -> bool {
    let read = one(piece(0, 3, 0, 0));
    let s = after(server0(), pre_accept(8, 0, read));
    answers(s, pre_accept(1, 0, read), pre_accept_ok(1, 0, 0, 0))
}

pub fn case_j() -> bool {
    let s = server0();
    let own = commit(63, put5(), words(9223372036854775808, 0));
    refuses(s, own, 3) & refuses(s, commit(64, put5(), Set::default()), 1)
}
