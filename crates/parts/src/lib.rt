// The parts that messages are made of, read and written.
#![tactic(auto)]

pub mod arrays; // arrays.rt: pieces and values
pub mod item; // item.rt: what every item offers
pub mod parts; // parts.rt: sets, and what may be missing
