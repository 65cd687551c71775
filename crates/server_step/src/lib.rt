// The parts of a server's step that read one record: the refusals in their order, and who came earlier.
#![tactic(auto)]

use server::Record;
use wire::Message;

pub mod refusals; // refusals.rt: the tests, in their order
pub mod record; // record.rt: the record of T, and who came earlier

// What a message that is not refused comes to: the place of the one record that it stores, that record as it becomes, and the reply.
#[derive(Clone, Copy)]
pub struct Considered {
    pub place: usize,
    pub after: Record,
    pub reply: Message,
}
