// A file's header, and a record's head.
ghost use Rattle.std.specs.Prelude.{◌≡◌, ◌≤◌, length};
ghost use Rattle.capture.specs.Pcap.{headed, header, head};

use crate::words::{half, word};
use crate::{Head, Header};

pub const HEADER: usize = 24;

pub const HEAD: usize = 16;

const MAGIC: u32 = 0xa1b2c3d4;

const LINK: u32 = 147;

// The version and the link type.
#[tactic(auto, unfolding(crate::specs::Pcap::headed))]
fn headed(little: bool, s: &[u8]) -> bool
    requires { 24 ≤ length s.now }
    ensures { result ≡ headed little s.now }
{
    half(little, s, 4) == 2 && half(little, s, 6) == 4 && word(little, s, 20) == LINK
}

// Whether a file that begins with these bytes begins as it should, and its byte order.
#[tactic(auto, unfolding(crate::specs::Pcap::header))]
pub fn header(s: &[u8]) -> Header
    ensures { result ≡ header s.now }
{
    if s.len() < HEADER {
        return Header {
            good: false,
            little: false,
        };
    }
    if word(false, s, 0) == MAGIC {
        return Header {
            good: headed(false, s),
            little: false,
        };
    }
    if word(true, s, 0) == MAGIC {
        return Header {
            good: headed(true, s),
            little: true,
        };
    }
    Header {
        good: false,
        little: false,
    }
}

// The head of a record.
#[tactic(auto, unfolding(crate::specs::Pcap::head))]
pub fn head(little: bool, s: &[u8]) -> Head
    requires { 16 ≤ length s.now }
    ensures { result ≡ head little s.now }
{
    Head {
        seconds: word(little, s, 0),
        captured: word(little, s, 8),
    }
}
