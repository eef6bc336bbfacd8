// The items around the contents of a value, by the tags of a record (X.690, 8.14): definite, in the shortest form.
ghost use Rattle.std.specs.Prelude.{◌≡◌, true, ◌<◌, ◌≤◌, ◌+◌, length};
ghost use Rattle.std.proofs.lemmas.List.Edits.{sets};
ghost use Rattle.table.specs.Syntax.{constructed};
ghost use Rattle.records.specs.Descriptors.{described};
ghost use Rattle.writer.specs.Frames.{cap, framed, heads};
ghost use Rattle.writer.specs.Known.{tags_from, record_in, Known, Short};

use ber::item;
use records::descriptor::{describe, tag_code, tag_count};
use records::entry::first;

// Stands for every length above that of the longest message.
const OVER: usize = 8193;

// The sum; 8,193 if it is over 8,192.
pub fn grow(a: usize, b: usize) -> usize
    requires { (a < 100000)
        × (b < 100000) }
    ensures { (result ≡ cap (a + b))
        × (result < 8194) }
{
    OVER.min(a + b)
}

// The length of the items by the tags from the j-th on, around n contents octets.
fn size_from(table: &[u8], w: u64, j: usize, n: usize) -> usize
    requires { Known table.now (described w)
        × (n < 8194) }
    ensures { (result ≡ framed (tags_from table.now (described w) j) n)
        × (result < 8194) }
{
    let e = describe(w);
    let mut total = n;
    for i in (j..tag_count(e)).rev() {
        let head = item::header_size(tag_code(table, e, i), total as u16);
        total = grow(head, total);
    }
    total
}

// Whether there is one tag, and its code and the length n take an octet each.
fn is_short(w: u64, n: usize) -> bool
    ensures { result ≡ true → Short (described w) n }
{
    let e = describe(w);
    e.explicit == 0 && e.code < 256 && n < 128
}

// The length of all items, around n contents octets.
pub fn size(table: &[u8], w: u64, n: usize) -> usize
    requires { Known table.now (described w)
        × (n < 8194) }
    ensures { (result ≡ framed (record_in table.now (described w)).tags n)
        × (result < 8194) }
{
    if is_short(w, n) {
        return n + 2;
    }
    size_from(table, w, 0, n)
}

// Their identifier and length octets.
fn put_all(table: &[u8], w: u64, n: usize, buf: &mut [u8], to: usize) -> usize
    requires { let r = record_in table.now (described w) in
        Known table.now (described w)
        × (n < 8194)
        × (to + length (heads (constructed r.body) r.tags n) ≤ length buf.old) }
    ensures { let x = record_in table.now (described w) in
        let h = heads (constructed x.body) x.tags n in
        (result ≡ to + length h)
        × (buf.new ≡ sets buf.old to h) }
{
    let e = describe(w);
    let mut next = to;
    for i in 0..tag_count(e) {
        let code = tag_code(table, e, i);
        let inner = size_from(table, w, i + 1, n);
        next = item::put_header(code, inner as u16, buf, next);
    }
    next
}

// Puts the octets before the n contents octets; where they end.
pub fn put(table: &[u8], w: u64, n: usize, buf: &mut [u8], to: usize) -> usize
    requires { let r = record_in table.now (described w) in
        Known table.now (described w)
        × (n < 8194)
        × (to + length (heads (constructed r.body) r.tags n) ≤ length buf.old) }
    ensures { let x = record_in table.now (described w) in
        let h = heads (constructed x.body) x.tags n in
        (result ≡ to + length h)
        × (buf.new ≡ sets buf.old to h) }
{
    if is_short(w, n) {
        buf[to] = first(w) as u8;
        let next = to + 1;
        buf[next] = n as u8;
        return to + 2;
    }
    put_all(table, w, n, buf, to)
}
