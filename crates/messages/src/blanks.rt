// Nothing, of each kind of field that is no number.
ghost use Rattle.std.specs.Prelude.{◌≡◌};
ghost use Rattle.rules.specs.Pieces.{no_pieces};
ghost use Rattle.rules.specs.Sets.{no_set};
ghost use Rattle.rules.specs.Values.{no_values};

use rules::{Pieces, Set, Values};

pub fn no_pieces() -> Pieces
    ensures { result ≡ no_pieces }
{
    Pieces::default()
}

pub fn no_set() -> Set
    ensures { result ≡ no_set }
{
    Set::default()
}

pub fn no_values() -> Values
    ensures { result ≡ no_values }
{
    Values::default()
}
