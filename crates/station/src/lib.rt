// What a host program in C or Rust calls: thin functions over lent states and bytes; `station_c` exports them. A server and a drive are read and changed in their place, and what a host is told is made once from what the functions below answer.
#![tactic(auto)]

pub mod by_value; // by_value.rt: messages and ballots by value
pub mod servers; // servers.rt: over a lent server
pub mod drives; // drives.rt: over a lent drive
