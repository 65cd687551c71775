// The parts of fresh, run and wanted that read no more than one record: what is there at first, and what a committed set names.
#![tactic(auto)]

pub mod first; // first.rt: what is there at first
pub mod gather; // gather.rt: what a committed set names
