// The contents octets of the simple kinds (X.690, 8.2 to 8.4, 8.6 to 8.8; FORMATS, "Times"). A leaf's own part is at p.
ghost use Rattle.std.specs.Prelude.{◌≡◌, true, false, ◌<◌, ◌≤◌, ◌+◌, ◌/◌, length, take, drop, pos};
ghost use Rattle.std.proofs.lemmas.List.Edits.{sets};
ghost use Rattle.octets.specs.Numbers.{two};
ghost use Rattle.x690.specs.Integer.{integer_of, fewest_of};
ghost use Rattle.x690.specs.Time.{time_digits};
ghost use Rattle.dates.specs.Calendar.{in_range};
ghost use Rattle.dates.specs.Own.{time_at};
ghost use Rattle.table.specs.Fields.{constructed_of};
ghost use Rattle.coding.specs.Value.{time_number};
ghost use Rattle.coding.specs.Form.{encode};
ghost use Rattle.kinds.specs.Kinds.{octet_of};
ghost use Rattle.writer.specs.Nodes.{own_end, leaf_of, clear_at};
ghost use Rattle.writer.specs.Leaves.{MeasuresSome};

use crate::node::fixed_end;
use clock::{calendar, own};
use dates::{DateTime, TimeKind};
use digits::time;
use kinds::Kind;
use simple::{bit_string, integer};

// The number that two octets at p stand for.
pub fn two(v: &[u8], p: usize) -> usize
    requires { p + 2 ≤ length v.now }
    ensures { (result ≡ two v.now p)
        × (result < 65536) }
{
    let q = p + 1;
    v[p] as usize * 256 + v[q] as usize
}

// Where the own part of a leaf ends, and how many contents octets it has.
#[derive(Clone, Copy, Debug, PartialEq, Eq)]
pub struct Extent {
    pub end: usize,
    pub size: usize,
}

// The integer of the eight octets at p.
fn eight(v: &[u8], p: usize) -> i64
    requires { p + 8 ≤ length v.now }
    ensures { result ≡ integer_of (take 8 (drop p v.now)) }
{
    let end = p + 8;
    integer::of_eight(&v[p..end])
}

// How many contents octets an ENUMERATED number has.
fn number_size(n: usize) -> usize
    requires { n < 65536 }
    ensures { (result ≡ length (fewest_of (pos n)))
        × (result ≤ 8) }
{
    integer::size(n as i64)
}

// The time of the seven octets at p.
fn seven(v: &[u8], p: usize) -> DateTime
    requires { p + 7 ≤ length v.now }
    ensures { result ≡ time_at v.now p }
{
    let end = p + 7;
    own::of(&v[p..end])
}

// Whether n bits from p on have 0 behind them to the end of their last octet, the one before e.
#[tactic(auto, using(crate::proofs::Leaves::clear_whole, crate::proofs::Leaves::clear_part))]
fn clear(v: &[u8], p: usize, e: usize, n: usize) -> bool
    requires { (p < 30000)
        × (n < 65536)
        × (e ≡ p + (n + 7) / 8)
        × (e ≤ length v.now) }
    ensures { result ≡ clear_at v.now p n }
{
    if n % 8 == 0 {
        return true;
    }
    let unit = bit_string::unit(8 - n % 8);
    let last = e - 1;
    v[last] % unit == 0
}

// Each of these answers for the leaf of its kind, if it is shaped.
fn boolean(v: &[u8], p: usize) -> Option<Extent>
    requires { p < 20000 }
    ensures { MeasuresSome 1 v.now p result }
{
    let end = fixed_end(v, p + 1)?;
    if 2 <= v[p] {
        return None;
    }
    Some(Extent { end, size: 1 })
}

fn integer(v: &[u8], p: usize) -> Option<Extent>
    requires { p < 20000 }
    ensures { MeasuresSome 2 v.now p result }
{
    let end = fixed_end(v, p + 8)?;
    let size = integer::size(eight(v, p));
    Some(Extent { end, size })
}

fn bits(v: &[u8], p: usize) -> Option<Extent>
    requires { p < 20000 }
    ensures { MeasuresSome 3 v.now p result }
{
    let start = fixed_end(v, p + 2)?;
    let n = two(v, p);
    let size = (n + 7) / 8;
    let end = fixed_end(v, start + size)?;
    if !clear(v, start, end, n) {
        return None;
    }
    Some(Extent {
        end,
        size: size + 1,
    })
}

fn string(v: &[u8], p: usize) -> Option<Extent>
    requires { p < 20000 }
    ensures { MeasuresSome 4 v.now p result }
{
    let start = fixed_end(v, p + 2)?;
    let size = two(v, p);
    let end = fixed_end(v, start + size)?;
    Some(Extent { end, size })
}

fn enumerated(v: &[u8], p: usize) -> Option<Extent>
    requires { p < 20000 }
    ensures { MeasuresSome 10 v.now p result }
{
    let end = fixed_end(v, p + 2)?;
    let size = number_size(two(v, p));
    Some(Extent { end, size })
}

fn time(v: &[u8], p: usize, kind: TimeKind) -> Option<Extent>
    requires { p < 20000 }
    ensures { MeasuresSome (time_number kind) v.now p result }
{
    let end = fixed_end(v, p + 7)?;
    if !calendar::in_range(kind, seven(v, p)) {
        return None;
    }
    let size = time::size(kind);
    Some(Extent { end, size })
}

// The leaf of a kind, if it is shaped.
pub fn measure(kind: Kind, v: &[u8], p: usize) -> Option<Extent>
    requires { (p < 20000)
        × (constructed_of (octet_of kind) ≡ false) }
    ensures { MeasuresSome (octet_of kind) v.now p result }
{
    match kind {
        Kind::Boolean => boolean(v, p),
        Kind::Integer => integer(v, p),
        Kind::BitString => bits(v, p),
        Kind::OctetString => string(v, p),
        Kind::Null => Some(Extent { end: p, size: 0 }),
        Kind::Enumerated => enumerated(v, p),
        _ => time(v, p, kind.time()),
    }
}

// How many contents octets the shaped leaf of a kind has.
pub fn size(kind: Kind, v: &[u8], p: usize) -> usize
    requires { (p < 20000)
        × (constructed_of (octet_of kind) ≡ false)
        × (0 < own_end (octet_of kind) v.now p) }
    ensures { (result ≡ length (encode (leaf_of (octet_of kind) v.now p)))
        × (result < 65536) }
{
    match kind {
        Kind::Boolean => 1,
        Kind::Integer => integer::size(eight(v, p)),
        Kind::BitString => (two(v, p) + 7) / 8 + 1,
        Kind::OctetString => two(v, p),
        Kind::Null => 0,
        Kind::Enumerated => number_size(two(v, p)),
        _ => time::size(kind.time()),
    }
}

// Copies n octets of v from p on into the buffer.
fn put_part(v: &[u8], p: usize, n: usize, buf: &mut [u8], to: usize)
    requires { (p + n ≤ length v.now)
        × (to + n ≤ length buf.old) }
    ensures { buf.new ≡ sets buf.old to (take n (drop p v.now)) }
{
    let end = p + n;
    let last = to + n;
    // `copy_from_slice` would ask for `memmove` (`octets::copy`).
    octets::copy(&v[p..end], &mut buf[to..last]);
}

// Puts the `size` contents octets of an integer.
fn put_integer(z: i64, size: usize, buf: &mut [u8], to: usize)
    requires { (size ≡ length (fewest_of z))
        × (to + size ≤ length buf.old) }
    ensures { buf.new ≡ sets buf.old to (fewest_of z) }
{
    let last = to + size;
    integer::put(z, &mut buf[to..last]);
}

// Puts the `size` contents octets of the time at p.
fn put_time(kind: TimeKind, size: usize, v: &[u8], p: usize, buf: &mut [u8], to: usize)
    requires { (p + 7 ≤ length v.now)
        × (in_range kind (time_at v.now p) ≡ true)
        × (size ≡ length (time_digits kind (time_at v.now p)))
        × (to + size ≤ length buf.old) }
    ensures { buf.new ≡ sets buf.old to (time_digits kind (time_at v.now p)) }
{
    let t = seven(v, p);
    let last = to + size;
    time::put(kind, t, &mut buf[to..last]);
}

// Puts the contents octets, `size` of them, of the shaped leaf of a kind; where its own part ends.
pub fn put(kind: Kind, size: usize, v: &[u8], p: usize, buf: &mut [u8], to: usize) -> usize
    requires { (p < 20000)
        × (constructed_of (octet_of kind) ≡ false)
        × (0 < own_end (octet_of kind) v.now p)
        × (size ≡ length (encode (leaf_of (octet_of kind) v.now p)))
        × (to + size ≤ length buf.old) }
    ensures { (result ≡ own_end (octet_of kind) v.now p)
        × (buf.new ≡ sets buf.old to (encode (leaf_of (octet_of kind) v.now p))) }
{
    match kind {
        Kind::Boolean => {
            buf[to] = if v[p] == 1 { 255 } else { 0 };
            p + 1
        }
        Kind::Integer => {
            put_integer(eight(v, p), size, buf, to);
            p + 8
        }
        Kind::BitString => {
            let count = two(v, p);
            let n = size - 1;
            buf[to] = (8 * n - count) as u8;
            let start = p + 2;
            put_part(v, start, n, buf, to + 1);
            start + n
        }
        Kind::OctetString => {
            let start = p + 2;
            put_part(v, start, size, buf, to);
            start + size
        }
        Kind::Null => p,
        Kind::Enumerated => {
            put_integer(two(v, p) as i64, size, buf, to);
            p + 2
        }
        _ => {
            put_time(kind.time(), size, v, p, buf, to);
            p + 7
        }
    }
}
