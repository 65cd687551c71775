// The kinds of a piece.
ghost use Rattle.std.specs.Prelude.{◌≡◌};
ghost use Rattle.rules.specs.Kind.{kind_of, writes};

#[derive(Clone, Copy, Debug, PartialEq, Eq)]
pub enum Kind {
    Read,
    Put,
    Add,
}

// What a piece with this number does. A number above 2 is no kind, and such a piece is refused before anything runs; one that a host lends as held adds.
impl From<u32> for Kind {
    ghost from_gives = { λ n k. k ≡ kind_of n };

    fn from(kind: u32) -> Kind {
        match kind {
            0 => Kind::Read,
            1 => Kind::Put,
            _ => Kind::Add,
        }
    }
}

impl Kind { // Whether it leaves another counter than it finds.
    pub fn writes(self) -> bool
        ensures { result ≡ writes self }
    {
        self != Kind::Read
    }
}
