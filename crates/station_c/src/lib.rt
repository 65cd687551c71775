// What a host links: each function of `station`, under the C names of include/drobulets.h and with the same contract.
#![tactic(auto)]

pub mod by_value; // by_value.rt: messages and ballots by value
pub mod servers; // servers.rt: over a lent server
pub mod drives; // drives.rt: over a lent drive
