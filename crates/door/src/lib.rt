// The door of the library: what a host is told of the states and bytes that it lends. `station` lends them.
#![tactic(auto)]

ghost use Rattle.std.specs.Prelude.{◌≡◌};
ghost use Rattle.door.specs.Told.{answered, due_as, counted_as};

use rules::refusals::Refusal;

pub mod exchange; // exchange.rt: bytes in, bytes out
pub mod readings; // readings.rt: what a server holds, a part at a time

// What a call that writes a message tells: the refusal or 0, and how many bytes it wrote, 0 on a refusal.
#[repr(C)]
#[derive(Clone, Copy)]
pub struct Answer {
    pub refusal: u32,
    pub length: u32,
}

impl From<Result<u32, Refusal>> for Answer {
    ghost from_gives = { λ written a. a ≡ answered written };

    fn from(written: Result<u32, Refusal>) -> Answer {
        match written {
            Ok(length) => Answer { refusal: 0, length },
            Err(refusal) => Answer {
                refusal: u32::from(refusal),
                length: 0,
            },
        }
    }
}

// The message due to a drive's servers: the refusal or 0, how many bytes it has, and the servers, bit s for the server s. All but the refusal is 0 on a refusal.
#[repr(C)]
#[derive(Clone, Copy, Default)]
pub struct Due {
    pub refusal: u32,
    pub length: u32,
    pub servers: u32,
}

// What is posted to a drive's servers: how many bytes the message has, and to which servers.
#[derive(Clone, Copy)]
pub struct Posted {
    pub length: u32,
    pub servers: u32,
}

impl From<Result<Posted, Refusal>> for Due {
    ghost from_gives = { λ posted d. d ≡ due_as posted };

    fn from(posted: Result<Posted, Refusal>) -> Due {
        match posted {
            Ok(posted) => Due {
                refusal: 0,
                length: posted.length,
                servers: posted.servers,
            },
            Err(refusal) => Due {
                refusal: u32::from(refusal),
                ..Due::default()
            },
        }
    }
}

// What a run tells: the refusal or 0, and how many numbers ran.
#[repr(C)]
#[derive(Clone, Copy)]
pub struct Counted {
    pub refusal: u32,
    pub many: u32,
}

impl From<Result<u32, Refusal>> for Counted {
    ghost from_gives = { λ ran c. c ≡ counted_as ran };

    fn from(ran: Result<u32, Refusal>) -> Counted {
        match ran {
            Ok(many) => Counted { refusal: 0, many },
            Err(refusal) => Counted {
                refusal: u32::from(refusal),
                many: 0,
            },
        }
    }
}

// A counter, or a result and whether it was kept. None where `some` is 0, and the rest is then 0.
#[repr(C)]
#[derive(Clone, Copy)]
pub struct Reading {
    pub some: u32,
    pub value: i32,
    pub kept: u32,
}

// A number of the log. None where `some` is 0, and the number is then 0.
#[repr(C)]
#[derive(Clone, Copy)]
pub struct LogEntry {
    pub some: u32,
    pub number: u32,
}
