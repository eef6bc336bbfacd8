// Octets: reads that are total, where all after the last octet counts as 0; room for octets; a copy.
#![tactic(auto)]

ghost use Rattle.std.specs.Prelude.{◌≡◌, ◌<◌, ◌+◌, ◌*◌, leb, get_or, length};
ghost use Rattle.octets.specs.Numbers.{two};
ghost use Rattle.octets.specs.Buffers.{filled};

// The octet at a place.
pub fn octet(s: &[u8], at: usize) -> usize
    ensures { (result ≡ get_or s.now at 0) × (result < 256) }
{
    if at < s.len() { s[at] as usize } else { 0 }
}

// The number that two octets stand for, the high one first.
pub fn two(s: &[u8], at: usize) -> usize
    ensures { (result ≡ two s.now at) × (result < 65536) }
{
    if at < s.len() {
        return octet(s, at) * 256 + octet(s, at + 1);
    }
    0
}

// Whether n octets stand in s from a place on.
pub fn holds(s: &[u8], at: usize, n: usize) -> bool
    ensures { result ≡ leb (at + n) (length s.now) }
{
    at <= s.len() && n <= s.len() - at
}

// Copies octets over a part that has as many; one that has not stays.
pub fn copy(c: &[u8], part: &mut [u8])
    ensures { part.new ≡ filled part.old c.now }
{
    if c.len() == part.len() {
        // `copy_from_slice` would have the archive ask for `memmove`, which a program without a C library has not.
        for i in 0..c.len() {
            part[i] = c[i];
        }
    }
}
