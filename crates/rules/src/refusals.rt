// Why a call is refused. Document 01 gives each reason its number; 0 is no refusal.
ghost use Rattle.std.specs.Prelude.{◌≡◌};
ghost use Rattle.rules.specs.Refusal.{number_of, told};

#[derive(Clone, Copy, Debug, PartialEq, Eq)]
pub enum Refusal {
    // A number, server, coordinator, ballot or promise out of its range.
    OutOfRange,
    // Pieces that break their rule.
    BadPieces,
    // A set or an arrival word that breaks its rule.
    BadSet,
    // The transaction does not touch this server's shard.
    Untouched,
    // Other pieces than those held.
    OtherPieces,
    // Another set than the one that is committed.
    OtherSet,
    // Fewer than two answers in a shard.
    TooFew,
    // A reply for another number, ballot, phase or server.
    Misplaced,
    // There is no next ballot.
    NoBallot,
    // The bytes end before the message does.
    Cut,
    // Bytes are left after the message.
    Left,
    // An unknown code, a count above 8, or a flag that is not 0 or 1.
    Unknown,
    // The state is not in form.
    OutOfForm,
    // The output is shorter than the message.
    NoRoom,
}

// Its number in document 01.
impl From<Refusal> for u32 {
    ghost from_gives = { λ r n. n ≡ number_of r };

    fn from(refusal: Refusal) -> u32 {
        match refusal {
            Refusal::OutOfRange => 1,
            Refusal::BadPieces => 2,
            Refusal::BadSet => 3,
            Refusal::Untouched => 4,
            Refusal::OtherPieces => 5,
            Refusal::OtherSet => 6,
            Refusal::TooFew => 7,
            Refusal::Misplaced => 8,
            Refusal::NoBallot => 9,
            Refusal::Cut => 10,
            Refusal::Left => 11,
            Refusal::Unknown => 12,
            Refusal::OutOfForm => 13,
            Refusal::NoRoom => 14,
        }
    }
}

// What a host is told of a check: the refusal's number, or 0.
pub fn told(judged: Result<(), Refusal>) -> u32
    ensures { result ≡ told judged }
{
    match judged {
        Ok(()) => 0,
        Err(refusal) => u32::from(refusal),
    }
}
