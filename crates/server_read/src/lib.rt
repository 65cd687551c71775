// What is read off a lent server, record by record: no function here copies or changes it.
#![tactic(auto)]

pub mod form; // form.rt: the form
pub mod stepping; // stepping.rt: what a message comes to
pub mod wanting; // wanting.rt: the wanted set
