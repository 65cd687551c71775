// Messages and ballots: no state is lent.
ghost use Rattle.std.specs.Prelude.{◌≡◌};
ghost use Rattle.rules.specs.Ballots.{next_ballot};
ghost use Rattle.wire.specs.Bytes.{decode};
ghost use Rattle.wire.specs.Encoding.{encode};
ghost use Rattle.encoding.specs.Answers.{answer};

use encoding::Encoded;
use rules::{Ballot, NextBallot};
use wire::{Decoded, Message};

// The next ballot of coordinator `c` above `n`, or why there is none.
pub fn drobulets_next_ballot(c: u32, n: u32) -> NextBallot
    ensures { result ≡ next_ballot c n }
{
    NextBallot::from(Ballot::next(c, n))
}

// The message that the bytes say, or the number of the first fault and the blank message.
pub fn drobulets_decode(input: &[u8]) -> Decoded
    ensures { result ≡ decode input.now }
{
    codec::decode(input)
}

// The bytes of the lent message at the front of the output, or a refusal and the output as it was lent.
pub fn drobulets_encode(message: &Message, output: &mut [u8]) -> Encoded
    ensures { (result ≡ answer (encode message.now output.old))
        × (output.new ≡ (encode message.now output.old).buffer) }
{
    codec::encode(message, output)
}
