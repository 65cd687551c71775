// Pieces and values, and the arrays of them: blank entries stand behind those that are used.
ghost use Rattle.std.specs.Prelude.{◌≡◌};
ghost use Rattle.std.proofs.Common.{rules};
ghost use Rattle.rules.specs.Pieces.{no_piece, no_pieces};
ghost use Rattle.rules.specs.Values.{no_value, no_values};
ghost use Rattle.parts.specs.Defaults.{pieces_blank, values_blank};
ghost use Rattle.wire.specs.Parts.{piece, pieces, value, values};

use crate::item::{Item, get_rows, put_rows};
use rules::{Piece, Pieces, Value, Values};
use xdr::{Cursor, Got};

impl Item for Piece {
    ghost form = { piece };

    ghost blank = { no_piece };

    fn get(s: &[u8], c: Cursor) -> Got<Piece> {
        let shard = xdr::get_u32(s, c);
        let key = xdr::get_u32(s, shard.next);
        let kind = xdr::get_u32(s, key.next);
        let operand = xdr::get_i32(s, kind.next);
        let v = Piece {
            shard: shard.v,
            key: key.v,
            kind: kind.v,
            operand: operand.v,
        };
        Got {
            v,
            next: operand.next,
        }
    }

    fn put(&self, out: &mut [u8], at: usize) -> usize {
        let a = self.shard.put(out, at);
        let b = self.key.put(out, a);
        let c = self.kind.put(out, b);
        self.operand.put(out, c)
    }

    ghost defaults = { Prim.search rules };
}

impl Item for Pieces {
    ghost form = { pieces };

    ghost blank = { no_pieces };

    fn get(s: &[u8], c: Cursor) -> Got<Pieces> {
        let mut list = [Piece::default(); 8];
        let count = get_rows(s, c, &mut list);
        let v = Pieces {
            list,
            count: count.v,
        };
        Got {
            v,
            next: count.next,
        }
    }

    #[tactic(auto, unfolding(wire::specs::Parts::pieces))]
    fn put(&self, out: &mut [u8], at: usize) -> usize {
        put_rows(out, at, self.count, &self.list)
    }

    ghost defaults = { pieces_blank (Prim.search rules) };
}

impl Item for Value {
    ghost form = { value };

    ghost blank = { no_value };

    fn get(s: &[u8], c: Cursor) -> Got<Value> {
        let value = xdr::get_i32(s, c);
        let kept = xdr::get_bool(s, value.next);
        let v = Value {
            value: value.v,
            kept: u32::from(kept.v),
        };
        Got { v, next: kept.next }
    }

    fn put(&self, out: &mut [u8], at: usize) -> usize {
        let a = self.value.put(out, at);
        (self.kept != 0).put(out, a)
    }

    ghost defaults = { Prim.search rules };
}

impl Item for Values {
    ghost form = { values };

    ghost blank = { no_values };

    fn get(s: &[u8], c: Cursor) -> Got<Values> {
        let mut list = [Value::default(); 8];
        let count = get_rows(s, c, &mut list);
        let v = Values {
            list,
            count: count.v,
        };
        Got {
            v,
            next: count.next,
        }
    }

    #[tactic(auto, unfolding(wire::specs::Parts::values))]
    fn put(&self, out: &mut [u8], at: usize) -> usize {
        put_rows(out, at, self.count, &self.list)
    }

    ghost defaults = { values_blank (Prim.search rules) };
}
