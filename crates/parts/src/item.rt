// An item of a message: how it is read at a cursor and written at a place.
// After a fault nothing is read and an item is blank, so that the first fault from the front stays.
ghost use Rattle.std.specs.Prelude.{◌≡◌, false, pos, ◌+◌, ◌≤◌, length, replicate};
ghost use Rattle.xdr.specs.Form.{Form, u32, u64, int, flag, flat, many-get, when, rows};
ghost use Rattle.xdr.specs.Over.{Put};
ghost use Rattle.xdr.specs.Reading.{Reads};

use xdr::{Cursor, Got};

pub trait Item: Copy + Default {
    // Its bytes.
    ghost form: { Form Self };

    // What stands where there is none: its default.
    ghost blank: { Self };

    fn get(s: &[u8], c: Cursor) -> Got<Self>
        ensures { Reads form s.now c result.v result.next };

    // Gives the place after it.
    fn put(&self, out: &mut [u8], at: usize) -> usize
        requires { at + length (form.put self.now) ≤ length out.old }
        ensures { Put at (form.put self.now) out.old result out.new };

    ghost defaults: { (x : Self) → Self.Default.is_default x → x ≡ blank };
}

impl Item for u32 {
    ghost form = { u32 };

    ghost blank = { 0 };

    fn get(s: &[u8], c: Cursor) -> Got<u32> {
        xdr::get_u32(s, c)
    }

    fn put(&self, out: &mut [u8], at: usize) -> usize {
        xdr::put_u32(&mut out[at..], *self);
        at + 4
    }

    ghost defaults = { λ x h. h };
}

impl Item for u64 {
    ghost form = { u64 };

    ghost blank = { 0 };

    fn get(s: &[u8], c: Cursor) -> Got<u64> {
        xdr::get_u64(s, c)
    }

    fn put(&self, out: &mut [u8], at: usize) -> usize {
        xdr::put_u64(&mut out[at..], *self);
        at + 8
    }

    ghost defaults = { λ x h. h };
}

impl Item for i32 {
    ghost form = { int };

    ghost blank = { pos 0 };

    fn get(s: &[u8], c: Cursor) -> Got<i32> {
        xdr::get_i32(s, c)
    }

    fn put(&self, out: &mut [u8], at: usize) -> usize {
        let v = *self;
        xdr::put_i32(&mut out[at..], v);
        at + 4
    }

    ghost defaults = { λ x h. h };
}

impl Item for bool {
    ghost form = { flag };

    ghost blank = { false };

    fn get(s: &[u8], c: Cursor) -> Got<bool> {
        xdr::get_bool(s, c)
    }

    fn put(&self, out: &mut [u8], at: usize) -> usize {
        xdr::put_bool(&mut out[at..], *self);
        at + 4
    }

    ghost defaults = { λ x h. h };
}

// The item, or nothing, as a flag that is known says.
pub fn put_if<T: Item>(out: &mut [u8], at: usize, has: bool, v: &T) -> usize
    requires { at + length ((when T.blank T.form has).put v.now) ≤ length out.old }
    ensures { Put at ((when T.blank T.form has).put v.now) out.old result out.new }
{
    if has {
        return v.put(out, at);
    }
    at
}

pub fn get_if<T: Item>(has: bool, s: &[u8], c: Cursor) -> Got<T>
    ensures { Reads (when T.blank T.form has) s.now c result.v result.next }
{
    if has {
        return T::get(s, c);
    }
    Got {
        v: T::default(),
        next: c,
    }
}

// Items in a row.
pub fn put_all<T: Item>(out: &mut [u8], at: usize, items: &[T]) -> usize
    requires { at + length (flat T.form items.now) ≤ length out.old }
    ensures { Put at (flat T.form items.now) out.old result out.new }
{
    let mut next = at;
    for item in items {
        next = item.put(out, next);
    }
    next
}

// As many as the slice is long. Gives the cursor after them.
pub fn get_all<T: Item>(s: &[u8], c: Cursor, items: &mut [T]) -> Cursor
    ensures { (items.new ≡ (many-get T.form (length items.old) s.now c).v) × (result ≡ (many-get T.form (length items.old) s.now c).next) }
{
    let mut next = c;
    for item in items.iter_mut() {
        let g = T::get(s, next);
        *item = g.v;
        next = g.next;
    }
    next
}

// An array: the count, and then the entries before it.
pub fn put_rows<T: Item>(out: &mut [u8], at: usize, count: u32, list: &[T]) -> usize
    requires { at + length ((rows T.blank T.form).put (count, list.now)) ≤ length out.old }
    ensures { Put at ((rows T.blank T.form).put (count, list.now)) out.old result out.new }
{
    let n = (count as usize).min(list.len());
    let entries = count.put(out, at);
    put_all(out, entries, &list[..n])
}

// Gives the count, and the entries in a blank list. The count is judged before its entries are read.
pub fn get_rows<T: Item>(s: &[u8], c: Cursor, list: &mut [T]) -> Got<u32>
    requires { list.old ≡ replicate 8 T.blank }
    ensures { Reads (rows T.blank T.form) s.now c (result.v, list.new) result.next }
{
    let count = xdr::get_count(s, c);
    let next = get_all(s, count.next, &mut list[..count.v as usize]);
    Got { v: count.v, next }
}
