// What a message that is not refused does to the record of its T, and the reply.
#![tactic(auto)]

pub mod changes;
