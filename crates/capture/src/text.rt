// Decimals and lines. A writer is lent the whole output and a place, writes there, and tells the next place.
ghost use Rattle.std.specs.Prelude.{◌≡◌, [], ◌∷◌, ◌+◌, ◌≤◌, length};
ghost use Rattle.xdr.specs.Over.{Put};
ghost use Rattle.capture.specs.Text.{decimal, maybe, shown, line, bad_header, cut_record, LINE};

use crate::{Shown, Told};

// A line takes no more than this.
pub const LINE: usize = 128;

const SPACE: u8 = b' ';

const NEWLINE: u8 = b'\n';

const DASH: u8 = b'-';

fn put_byte(out: &mut [u8], at: usize, b: u8) -> usize
    requires { at + 1 ≤ length out.old }
    ensures { Put at (b ∷ []) out.old result out.new }
{
    out[at] = b;
    at + 1
}

pub fn put_decimal(out: &mut [u8], at: usize, n: u64) -> usize
    requires { at + 20 ≤ length out.old }
    ensures { Put at (decimal n) out.old result out.new }
{
    let mut buffer = itoa::Buffer::new();
    let text = buffer.format(n).as_bytes();
    let next = at + text.len();
    out[at..next].copy_from_slice(text);
    next
}

// A number where there is one, else a dash.
#[tactic(auto, unfolding(crate::specs::Text::maybe))]
fn put_maybe(out: &mut [u8], at: usize, number: Option<u32>) -> usize
    requires { at + 20 ≤ length out.old }
    ensures { Put at (maybe number) out.old result out.new }
{
    match number {
        Some(n) => put_decimal(out, at, u64::from(n)),
        None => put_byte(out, at, DASH),
    }
}

#[tactic(auto, unfolding(crate::specs::Text::shown))]
fn put_shown(out: &mut [u8], at: usize, answer: Shown) -> usize
    requires { at + 22 ≤ length out.old }
    ensures { Put at (shown answer) out.old result out.new }
{
    match answer {
        Shown::Dash => put_byte(out, at, DASH),
        Shown::Code(c) => put_decimal(out, at, u64::from(c)),
        Shown::Refusal(n) => {
            let a = put_byte(out, at, b'r');
            let b = put_byte(out, a, SPACE);
            put_decimal(out, b, u64::from(n))
        }
    }
}

// The line of a record.
#[tactic(auto, using(crate::proofs::Lengths::decimal_short, crate::proofs::Lengths::maybe_short, crate::proofs::Lengths::shown_short))]
pub fn put_line(out: &mut [u8], at: usize, number: u64, seconds: u32, o: Told) -> usize
    requires { at + LINE ≤ length out.old }
    ensures { Put at (line number seconds o) out.old result out.new }
{
    let a = put_decimal(out, at, number);
    let b = put_byte(out, a, SPACE);
    let c = put_decimal(out, b, u64::from(seconds));
    let d = put_byte(out, c, SPACE);
    let e = put_maybe(out, d, o.code);
    let f = put_byte(out, e, SPACE);
    let g = put_maybe(out, f, o.t);
    let h = put_byte(out, g, SPACE);
    let answer = o.answer;
    let i = put_shown(out, h, answer);
    put_byte(out, i, NEWLINE)
}
