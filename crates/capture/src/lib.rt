// Classic pcap captures, and the lines that are printed of their records.
#![tactic(auto)]

mod words; // words.rt: numbers in the file's byte order
pub mod pcap; // pcap.rt: a file's header, and a record's head
pub mod text; // text.rt: decimals and lines

// Whether a file begins as it should, and its byte order.
#[derive(Clone, Copy)]
pub struct Header {
    pub good: bool,
    pub little: bool,
}

// Of a record's head: when, and how many bytes were captured.
#[derive(Clone, Copy)]
pub struct Head {
    pub seconds: u32,
    pub captured: u32,
}

// The last column of a line.
#[derive(Clone, Copy)]
pub enum Shown {
    Dash,
    Code(u32),
    Refusal(u32),
}

// What a line says of a record's data. Where it wasn't read there is no code and no T.
#[derive(Clone, Copy)]
pub struct Told {
    pub code: Option<u32>,
    pub t: Option<u32>,
    pub answer: Shown,
}
