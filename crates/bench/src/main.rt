// The cases A to L of document 01: a line each, its letter and `ok`, or `bad` where the library answers anything else.
// Every verdict is computed from calls of the library.
#![tactic(auto)]

mod feed; // feed.rt: pieces and sets to feed
mod exchange; // exchange.rt: messages told as bytes, and what an answer is held against
mod asked; // asked.rt: A, B, C, I and J, a server that is asked
mod ran; // ran.rt: D, E and F, a server that runs
mod alone; // alone.rt: G, H, K and L, ballots, counters, bytes and a drive

use std::io;
use std::io::Print;

fn line(rt: &impl Print, letter: &str, ok: bool) -> io::Result<()> {
    if ok {
        println!(rt; "{letter} ok")
    } else {
        println!(rt; "{letter} bad")
    }
}

fn main(rt: HostRuntime) -> io::Result<()> {
    line(&rt, "A", asked::case_a())?;
    line(&rt, "B", asked::case_b())?;
    line(&rt, "C", asked::case_c())?;
    line(&rt, "D", ran::case_d())?;
    line(&rt, "E", ran::case_e())?;
    line(&rt, "F", ran::case_f())?;
    line(&rt, "G", alone::case_g())?;
    line(&rt, "H", alone::case_h())?;
    line(&rt, "I", asked::case_i())?;
    line(&rt, "J", asked::case_j())?;
    line(&rt, "K", alone::case_k())?;
    line(&rt, "L", alone::case_l())
}
