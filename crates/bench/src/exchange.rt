// A server and a drive that are told messages as bytes, and what their answers are held against.
use counters::{Counter, Counters};
use drive::Drive;
use server::{Log, Server};
use server_run::first::fresh_record;
use station::by_value::drobulets_encode;
use station::drives::drobulets_drive_take;
use station::servers::{drobulets_server_fresh, drobulets_server_take};
use wire::Message;

// No message has more bytes.
const LONGEST: usize = 176;

// Server 0 as it is at first, in a place where another stood.
pub fn server0() -> Server {
    let mut other = fresh_record();
    other.promise = 8;
    let nine = Counter { value: 9, full: 1 };
    let mut server = Server {
        id: 11,
        records: [other; 64],
        counters: Counters { list: [nine; 16] },
        log: Log {
            list: [7u32; 64],
            count: 64,
        },
    };
    let _refusal = drobulets_server_fresh(&mut server, 0);
    server
}

// What was written for a message: the refusal or 0, how many bytes, and the bytes.
#[derive(Clone, Copy)]
struct Written {
    refusal: u32,
    length: u32,
    bytes: [u8; LONGEST],
}

fn bytes_of(m: Message) -> Written {
    let mut bytes = [0u8; LONGEST];
    let e = drobulets_encode(&m, &mut bytes);
    Written {
        refusal: e.refusal,
        length: e.length,
        bytes,
    }
}

// Both are taken, and to the same bytes.
fn agree(a: &Written, b: &Written) -> bool {
    (a.refusal == 0) & (b.refusal == 0) & (a.length == b.length) & (a.bytes == b.bytes)
}

// The same message: both are written, and to the same bytes.
pub fn same(a: Message, b: Message) -> bool {
    agree(&bytes_of(a), &bytes_of(b))
}

// What a server writes for a message; the server is left as the message leaves it.
fn told(s: &mut Server, m: Message) -> Written {
    let input = bytes_of(m);
    let end = LONGEST.min(input.length as usize);
    let mut bytes = [0u8; LONGEST];
    let a = drobulets_server_take(s, &input.bytes[..end], &mut bytes);
    Written {
        refusal: a.refusal,
        length: a.length,
        bytes,
    }
}

// The server after a message.
pub fn after(s: Server, m: Message) -> Server {
    let mut server = s;
    let _answer = told(&mut server, m);
    server
}

// The server takes the message, and answers it so: with the bytes of this reply.
pub fn answers(s: Server, m: Message, reply: Message) -> bool {
    let mut server = s;
    agree(&told(&mut server, m), &bytes_of(reply))
}

// The server refuses the message by this number.
pub fn refuses(s: Server, m: Message, refusal: u32) -> bool {
    let mut server = s;
    told(&mut server, m).refusal == refusal
}

// The drive after a reply.
pub fn heard(d: Drive, m: Message) -> Drive {
    let mut drive = d;
    let input = bytes_of(m);
    let end = LONGEST.min(input.length as usize);
    let _refusal = drobulets_drive_take(&mut drive, &input.bytes[..end]);
    drive
}
