// Whole items (X.690, 8.1.1): identifier, length and contents octets, and those that end indefinite contents.
ghost use Rattle.std.specs.Prelude.{◌≡◌, ◌++◌, ◌≤◌, length};
ghost use Rattle.octets.specs.Buffers.{put, put_end};
ghost use Rattle.ber.specs.Codes.{code_octets};
ghost use Rattle.x690.specs.Length.{length_octets};
ghost use Rattle.ber.specs.Told.{told_length};
ghost use Rattle.ber.specs.Skipping.{headed, open_end, item_end};

use crate::length::Extent;
use crate::{identifier, length};
use x690::ReadingCause;

// The extent of the item that m begins with, whichever it is.
#[tactic(auto, using(crate::proofs::Skipping::extent_none))]
fn extent(m: &[u8]) -> Result<Extent, ReadingCause>
    ensures { result ≡ told_length (length m.now) (headed m.now) }
{
    let i = identifier::read(m)?;
    length::read(m, i.end)
}

// Where indefinite contents end that begin at a place of m. Those that no reader accepts go to the end of m.
fn open_end(m: &[u8], start: usize) -> usize
    requires { start ≤ length m.now }
    ensures { result ≡ open_end m.now start }
{
    let mut at = start;
    let mut open: usize = 1;
    while 0 < open {
        let left = m.len() - at;
        if left < 2 {
            return m.len();
        }
        if m[at] == 0 {
            at += 2;
            open -= 1;
        } else {
            let rest = &m[at..];
            let Ok(x) = extent(rest) else {
                return m.len();
            };
            if x.indefinite {
                at += x.start;
                open += 1;
            } else {
                at += x.end;
            }
        }
    }
    at
}

// Where the item that m begins with ends, by headers alone; its identifier ends at `from`. One that no reader accepts goes to the end of m.
pub fn end(m: &[u8], from: usize) -> usize
    ensures { result ≡ item_end m.now from }
{
    match length::read(m, from) {
        Err(_) => m.len(),
        Ok(x) if x.indefinite => open_end(m, x.start),
        Ok(x) => x.end,
    }
}

// How many octets stand before n contents octets in the definite item of a code.
pub fn header_size(code: u32, n: u16) -> usize
    ensures { result ≡ length (code_octets code ++ length_octets n) }
{
    identifier::size(code) + length::size(n)
}

// Puts these octets; where they end, or the place itself if there is no room.
pub fn put_header(code: u32, n: u16, buf: &mut [u8], to: usize) -> usize
    ensures { let w = code_octets code ++ length_octets n in
        (result ≡ put_end buf.old to w)
        × (buf.new ≡ put buf.old to w) }
{
    if !octets::holds(buf, to, header_size(code, n)) {
        return to;
    }
    let next = identifier::put(code, buf, to);
    length::put(n, buf, next)
}
