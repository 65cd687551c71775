// Messages and ballots: no state is lent.
ghost use Rattle.std.specs.Prelude.{◌≡◌};
ghost use Rattle.rules.specs.Ballots.{next_ballot};
ghost use Rattle.wire.specs.Bytes.{decode};
ghost use Rattle.wire.specs.Encoding.{encode};
ghost use Rattle.encoding.specs.Answers.{answer};

use encoding::Encoded;
use rules::NextBallot;
use wire::{Decoded, Message};

// The next ballot of coordinator `c` above `n`, or why there is none.
#[unsafe(no_mangle)]
pub extern "C" fn drobulets_next_ballot(c: u32, n: u32) -> NextBallot
    ensures { result ≡ next_ballot c n }
{
    station::by_value::drobulets_next_ballot(c, n)
}

// The message that the bytes say, or the number of the first fault and the blank message.
#[unsafe(no_mangle)]
pub extern "C" fn drobulets_decode(input: &[u8]) -> Decoded
    ensures { result ≡ decode input.now }
{
    station::by_value::drobulets_decode(input)
}

// The bytes of the lent message at the front of the output, or a refusal and the output as it was lent.
#[unsafe(no_mangle)]
pub extern "C" fn drobulets_encode(message: &Message, output: &mut [u8]) -> Encoded
    ensures { (result ≡ answer (encode message.now output.old))
        × (output.new ≡ (encode message.now output.old).buffer) }
{
    station::by_value::drobulets_encode(message, output)
}
