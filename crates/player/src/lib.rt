// A captured day, played to twelve fresh servers from portions of the file as they come.
#![tactic(auto)]

use capture::Told;
use server::Server;

mod filling; // filling.rt: bytes are kept until what is read is whole
mod looking; // looking.rt: what a record's data says
pub mod chewing; // chewing.rt: a portion of the file is played

// What is read: the header, a record's head, its data; or nothing more, since the header is bad.
const OPENING: u32 = 0;

const HEADS: u32 = 1;

const DATA: u32 = 2;

const OVER: u32 = 3;

// Where the walk stands: what is read, the file's byte order, the number of the next line, the record's seconds, how many bytes are still to come, and those kept.
#[derive(Clone, Copy)]
pub struct Walk {
    pub phase: u32,
    pub little: bool,
    pub number: u64,
    pub seconds: u32,
    pub left: u32,
    pub have: usize,
    pub kept: [u8; 181],
}

// What a record's data says by itself. Where it is `to` a server, the answer is still to come.
#[derive(Clone, Copy)]
pub struct Look {
    pub told: Told,
    pub to: Option<usize>,
}

// The walk and its servers, and of the last portion how many bytes were taken, and how many bytes of lines were made.
#[derive(Clone, Copy)]
pub struct Play {
    pub walk: Walk,
    pub servers: [Server; 12],
    pub taken: usize,
    pub made: usize,
}
