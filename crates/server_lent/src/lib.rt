// A fresh server and the runs, on a lent server in its place: no function here copies it.
#![tactic(auto)]

pub mod first; // first.rt: a fresh server
pub mod running; // running.rt: the numbers that run, one after the other
