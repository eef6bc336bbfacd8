// Integers as two's complement octets (X.690, 8.3): one to eight of them become an i64, and an i64 its fewest, or all eight.
ghost use Rattle.std.specs.Prelude.{◌≡◌, ◌&&◌, ◌<◌, ◌≤◌, ltb, leb, length};
ghost use Rattle.std.specs.Int.{w64};
ghost use Rattle.std.proofs.Common.{of_z};
ghost use lib.Signed.{mag};
ghost use Rattle.octets.specs.Tests.{if};
ghost use Rattle.octets.specs.Buffers.{filled};
ghost use Rattle.x690.specs.Integer.{integer_of, minimal, fewest_of, eight_of};
ghost use Rattle.simple.specs.Integers.{integer_in, last_octets};
ghost use Rattle.x690.specs.Integer.{spare as Integer·spare};

// The octet that stands before contents with this first octet when they are read into eight: the sign in every bit (8.3.3). No test chooses it.
pub fn fill(first: u8) -> u8
    ensures { result ≡ (if (ltb first 0x80) 0x00 λ _. 0xFF) }
{
    first / 128 * 255
}

// The integer of contents of at most eight octets; 0 for more. Its bits are eight octets: the fill, and then the contents.
#[tactic(auto, using(crate::proofs::IntegerCode::integer_none, crate::proofs::IntegerCode::integer_long))]
pub fn of(c: &[u8]) -> i64
    ensures { result ≡ integer_in c.now }
{
    let Some((first, rest)) = c.split_first() else {
        return 0;
    };
    if 7 < rest.len() {
        return 0;
    }
    // seven fills, and the first octet; each octet after it pushes one fill out
    let mut u = u64::from(fill(*first)) * 0x0101010101010100 + u64::from(*first);
    for x in rest {
        u = u % 0x0100000000000000 * 256 + u64::from(*x);
    }
    u.cast_signed()
}

// The integer of eight octets; 0 if they are not eight.
#[tactic(auto, using(crate::proofs::IntegerCode::not_eight))]
pub fn of_eight(c: &[u8]) -> i64
    ensures { result ≡ integer_of (filled (Rattle.x690.specs.Integer.eight 0) c.now) }
{
    let Ok(eight) = <[u8; 8]>::try_from(c) else {
        return 0;
    };
    i64::from_be_bytes(eight)
}

// Whether a first octet could be left out, before a second.
#[tactic(auto, unfolding(x690::specs::Integer::spare))]
fn spare(a: u8, b: u8) -> bool
    ensures { result ≡ Integer·spare a b }
{
    if a == 0 {
        return b < 128;
    }
    if a == 255 {
        return !(b < 128);
    }
    false
}

// Whether contents are an integer of at most eight octets in its fewest (8.3.2).
#[tactic(auto, using(crate::proofs::IntegerCode::minimal_none, crate::proofs::IntegerCode::minimal_one, crate::proofs::IntegerCode::minimal_more))]
pub fn is_integer(c: &[u8]) -> bool
    ensures { result ≡ (minimal c.now && leb (length c.now) 8) }
{
    if c.len() == 0 {
        return false;
    }
    if c.len() == 1 {
        return true;
    }
    if 8 < c.len() {
        return false;
    }
    !spare(c[0], c[1])
}

// z, or its complement if it is negative.
fn magnitude(z: i64) -> u64
    ensures { result ≡ mag z }
{
    let n = if z < 0 { !z } else { z };
    n.cast_unsigned()
}

// How many contents octets z has.
pub fn size(z: i64) -> usize
    ensures { (result ≡ length (fewest_of z)) × (1 ≤ result) × (result ≤ 8) }
{
    let n = magnitude(z);
    if n < 128 {
        return 1;
    }
    if n < 32768 {
        return 2;
    }
    if n < 8388608 {
        return 3;
    }
    if n < 2147483648 {
        return 4;
    }
    if n < 549755813888 {
        return 5;
    }
    if n < 140737488355328 {
        return 6;
    }
    if n < 36028797018963968 {
        return 7;
    }
    8
}

// Fills a part with as many of the last octets of z, the last first; after eight of them 0.
#[tactic(auto, using(crate::proofs::IntegerCode::last_turn))]
pub fn put(z: i64, part: &mut [u8])
    ensures { part.new ≡ last_octets (length part.old) (of_z w64 z) }
{
    let mut u = z.cast_unsigned();
    for i in (0..part.len()).rev() {
        part[i] = (u % 256) as u8;
        u /= 256;
    }
}

// Puts all eight octets of z over a part of eight; another stays.
#[tactic(auto, using(crate::proofs::IntegerCode::eight_stays))]
pub fn put_eight(z: i64, part: &mut [u8])
    ensures { part.new ≡ filled part.old (eight_of z) }
{
    if part.len() != 8 {
        return;
    }
    part.copy_from_slice(&z.to_be_bytes());
}
