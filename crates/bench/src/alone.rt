// The cases of ballots, counters, bytes and a drive: G, H, K and L.
use crate::exchange::{heard, same};
use crate::feed::{put5, words};
use counters::{Counter, Outcome};
use drive::Drive;
use messages::asks::inquire;
use messages::replies::pre_accept_ok;
use rules::Set;
use station::by_value::{drobulets_decode, drobulets_encode, drobulets_next_ballot};
use station::drives::drobulets_drive_start;

// The next ballot of c above n is this one, or is refused.
fn next_is(c: u32, n: u32, refusal: u32, ballot: u32) -> bool {
    let b = drobulets_next_ballot(c, n);
    (b.refusal == refusal) & (b.ballot == ballot)
}

pub fn case_g() -> bool {
    next_is(0, 0, 0, 8)
        & next_is(3, 8, 0, 11)
        & next_is(2, 65529, 0, 65530)
        & next_is(2, 65530, 9, 0)
}

// A piece leaves its counter at v, full or not, and gives v, kept if it is full.
fn leaves(r: Outcome, v: i32, full: u32) -> bool {
    let left = (r.counter.value == v) & (r.counter.full == full);
    left & (r.result.value == v) & (r.result.kept == full)
}

// An add of n to a counter at `old` that is not full leaves it at v, and a read after it shows the same.
fn adds(n: i32, old: i32, v: i32, full: u32) -> bool {
    let added = counters::effect(
        2,
        n,
        Counter {
            value: old,
            full: 0,
        },
    );
    let read = counters::effect(0, 0, added.counter);
    leaves(added, v, full) & leaves(read, v, full)
}

pub fn case_h() -> bool {
    adds(1, 2147483646, 2147483647, 0)
        & adds(1, 2147483647, 2147483647, 1)
        & adds(-1, -2147483648, -2147483648, 1)
}

pub fn case_k() -> bool {
    let bytes = [0u8, 0, 0, 4, 0, 0, 0, 9];
    let mut out = [255u8; 9];
    let wrote = drobulets_encode(&inquire(9), &mut out);
    let back = drobulets_decode(&bytes);
    let cut = drobulets_decode(&bytes[..7]);
    let more = drobulets_decode(&[0u8, 0, 0, 4, 0, 0, 0, 9, 0]);
    let six = drobulets_decode(&[0u8, 0, 0, 6, 0, 0, 0, 9]);
    (wrote.refusal == 0)
        & (wrote.length == 8)
        & (out == [0, 0, 0, 4, 0, 0, 0, 9, 255])
        & (back.refusal == 0)
        & same(back.message, inquire(9))
        & (cut.refusal == 10)
        & (more.refusal == 11)
        & (six.refusal == 12)
}

// The drive of T8 after three arrival words.
fn of_words(a: u64, b: u64, c: u64) -> Drive {
    let mut drive = drive_host::began(0, 0, 0, 0, put5(), 0);
    let _refusal = drobulets_drive_start(&mut drive, 0, 8, put5());
    let first = heard(drive, pre_accept_ok(8, 0, 0, a));
    let second = heard(first, pre_accept_ok(8, 1, 0, b));
    heard(second, pre_accept_ok(8, 2, 0, c))
}

pub fn case_l() -> bool {
    let slow = of_words(0, 0, 2);
    let fast = of_words(0, 0, 0);
    (slow.phase == 2)
        & (slow.chosen.set == words(2, 0))
        & (fast.phase == 3)
        & (fast.chosen.set == Set::default())
}
