// Refusal 13: what the form of a server asks of its log, and of the record of one number.
#![tactic(auto)]

pub mod log; // log.rt: the log's numbers as a word
pub mod number; // number.rt: the record and the results of one number
