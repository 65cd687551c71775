// The bytes of a message, written and read.
#![tactic(auto)]

ghost use Rattle.std.specs.Prelude.{◌≡◌};
ghost use Rattle.wire.specs.Bytes.{decode};
ghost use Rattle.wire.specs.Encoding.{encode};
ghost use Rattle.encoding.specs.Answers.{answer, told_of};

use encoding::{Encoded, shapes};
use rules::refusals::Refusal;
use wire::{Decoded, Message};

mod exact; // exact.rt: a message that is as long as its code says, read
mod decoding; // decoding.rt: a message read by its sections, and the first fault

// The message that the bytes say, or the number of the first fault and the blank message.
pub fn decode(bytes: &[u8]) -> Decoded
    ensures { result ≡ decode bytes.now }
{
    if exact::is_bare(bytes) {
        return exact::read_bare(bytes);
    }
    if let Some(seen) = exact::see_asked(bytes) {
        return exact::read_asked(bytes, seen);
    }
    if let Some(code) = exact::see_answered(bytes) {
        return exact::read_answered(bytes, code);
    }
    decoding::decode(bytes)
}

// The message's bytes at the front of the output, built in a cleared buffer and then copied, as a host is told of it; or a refusal, and the output as it was.
pub fn encode(message: &Message, out: &mut [u8]) -> Encoded
    ensures { (result ≡ answer (encode message.now out.old)) × (out.new ≡ (encode message.now out.old).buffer) }
{
    Encoded::from(write(message, out))
}

// The same: how many bytes these are. By the kind of the message.
pub fn write(message: &Message, out: &mut [u8]) -> Result<u32, Refusal>
    ensures { (told_of result ≡ answer (encode message.now out.old)) × (out.new ≡ (encode message.now out.old).buffer) }
{
    let code = message.code;
    if shapes::bare(code) {
        return encoding::bare(out, message);
    }
    if shapes::asked(code) {
        return encoding::asked(out, message);
    }
    if shapes::answered(code) {
        return encoding::answered(out, message);
    }
    Err(Refusal::Unknown)
}
