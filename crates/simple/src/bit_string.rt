// Contents of a BIT STRING: the number of unused bits, then the octets of the bits (X.690, 8.6).
ghost use Rattle.std.specs.Prelude.{◌≡◌, not, ◌&&◌, ◌^◌, ◌%◌, get_or, drop};
ghost use Rattle.octets.specs.Answer.{none_left};
ghost use Rattle.octets.specs.Buffers.{filled};
ghost use Rattle.x690.specs.BitString.{unused, masked};

// The value of the bit behind which n bits stand, as far as they are seven.
pub fn unit(n: usize) -> u8
    ensures { result ≡ 2 ^ (n % 8) }
{
    1 << (n % 8)
}

// Whether contents are those of a bit string: there is an octet, and as many bits may be unused as it says.
#[tactic(auto, using(x690::proofs::BitString::no_bits, x690::proofs::BitString::bits_none, x690::proofs::BitString::bits_some))]
pub fn are_bits(c: &[u8]) -> bool
    ensures { result ≡ (not (none_left c.now) && unused (get_or c.now 0 0) (drop 1 c.now)) }
{
    match c {
        [] => false,
        [n] => *n == 0,
        [n, ..] => *n < 8,
    }
}

// Copies octets over a part that has as many, with the last n bits cleared, of at most seven.
#[tactic(auto, using(x690::proofs::BitString::masked_stays))]
pub fn copy_masked(c: &[u8], n: usize, part: &mut [u8])
    ensures { part.new ≡ filled part.old (masked (n % 8) c.now) }
{
    if c.len() != part.len() {
        return;
    }
    // `copy_from_slice` would ask for `memmove` (`octets::copy`).
    octets::copy(c, part);
    mask(n, part);
}

// Clears the last n bits of octets, of at most seven.
#[tactic(auto, using(x690::proofs::BitString::masked_nothing, x690::proofs::BitString::masked_set))]
pub fn mask(n: usize, part: &mut [u8])
    ensures { part.new ≡ masked (n % 8) part.old }
{
    let k = part.len();
    if k == 0 {
        return;
    }
    let last = k - 1;
    let p = unit(n);
    part[last] = part[last] / p * p;
}
