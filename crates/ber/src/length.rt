// Length octets (X.690, 8.1.3). They are read in all forms that have at most four octets after the first (FORMATS, "Messages"), and put in the
// shortest definite one.
ghost use Rattle.std.specs.Prelude.{false, ◌≡◌, ℕ, ◌<◌, ◌≤◌, ◌+◌, ◌-◌, ◌^◌, length, get_or, drop};
ghost use Rattle.octets.specs.Buffers.{put, put_end};
ghost use Rattle.x690.specs.Length.{longest_field, length_octets};
ghost use Rattle.x690.specs.Reading.{read_length};
ghost use Rattle.ber.specs.Told.{told_length, again_at};
ghost use Rattle.ber.specs.declared.length.Extent.{Extent};

use x690::ReadingCause;

// At most so many octets stand behind the first one.
const LONGEST_FIELD: usize = 4;

// Where the contents begin and end, and whether 00 00 closes them; then their end is that of m.
#[derive(Clone, Copy, Debug, PartialEq, Eq)]
pub struct Extent {
    pub start: usize,
    pub end: usize,
    pub indefinite: bool,
}

// The long form with k octets from `at` on, which count less than 2^32.
fn read_long(m: &[u8], at: usize, k: usize) -> Result<Extent, ReadingCause>
    requires { (0 < at) × (at ≤ length m.now) × (0 < k) × (k ≤ longest_field) × (get_or m.now (at - 1) 0 ≡ 128 + k) }
    ensures { (l : ℕ) → result ≡ told_length (length m.now) (read_length l (drop (at - 1) m.now)) }
{
    let start = at + k;
    if m.len() < start {
        return Err(ReadingCause::Cut);
    }
    let mut n: usize = 0;
    for p in at..start {
        n = n * 256 + m[p] as usize;
    }
    let end = start + n;
    if m.len() < end {
        return Err(ReadingCause::Cut);
    }
    Ok(Extent {
        start,
        end,
        indefinite: false,
    })
}

// The forms but the short one: `first` is the first octet, and the next is at `at`.
#[tactic(auto, using(crate::proofs::Told::other_lengths))]
fn read_other(m: &[u8], at: usize, first: usize) -> Result<Extent, ReadingCause>
    requires { (0 < at) × (at ≤ length m.now) × (first ≡ get_or m.now (at - 1) 0) × (128 ≤ first) × (first < 256) }
    ensures { (l : ℕ) → result ≡ told_length (length m.now) (read_length l (drop (at - 1) m.now)) }
{
    if first == 128 {
        return Ok(Extent {
            start: at,
            end: m.len(),
            indefinite: true,
        });
    }
    let k = first - 128;
    if k <= LONGEST_FIELD {
        return read_long(m, at, k);
    }
    if first < 255 {
        return Err(ReadingCause::LengthField);
    }
    Err(ReadingCause::Forbidden)
}

// The length octets at a place of m. Of a length that is read at most four octets stand between the first one and the contents, and a
// definite one is below 2^32 (FORMATS, "Messages").
#[tactic(auto, using(crate::proofs::Told::lengths))]
pub fn read(m: &[u8], at: usize) -> Result<Extent, ReadingCause>
    ensures { ((l : ℕ) → result ≡ told_length (length m.now) (read_length l (drop at m.now)))
        × ((x : Extent) → result ≡ Ok x → x.start ≤ at + 1 + longest_field)
        × ((x : Extent) → result ≡ Ok x → x.indefinite ≡ false → x.end - x.start < 2 ^ 32) }
{
    if m.len() <= at {
        return Err(ReadingCause::Cut);
    }
    let first = m[at] as usize;
    let start = at + 1;
    if first < 128 {
        let end = start + first;
        if m.len() < end {
            return Err(ReadingCause::Cut);
        }
        return Ok(Extent {
            start,
            end,
            indefinite: false,
        });
    }
    read_other(m, start, first)
}

// The length octets at a place of m where a length was read before; if none can be read there, an extent of no octets.
#[tactic(auto, using(crate::proofs::Told::again))]
pub fn again(m: &[u8], at: usize) -> Extent
    ensures { result ≡ again_at m.now at }
{
    let none = Extent {
        start: 0,
        end: 0,
        indefinite: false,
    };
    if m.len() <= at {
        return none;
    }
    let first = m[at] as usize;
    let start = at + 1;
    if first < 128 {
        return Extent {
            start,
            end: start + first,
            indefinite: false,
        };
    }
    read_other(m, start, first).unwrap_or(none)
}

// How many octets the length n has.
#[tactic(auto, using(crate::proofs::Headers::lengths))]
pub fn size(n: u16) -> usize
    ensures { (result ≡ length (length_octets n)) × (result < 4) }
{
    if 255 < n {
        return 3;
    }
    if 127 < n {
        return 2;
    }
    1
}

// Puts the length n; where it ends, or the place itself if there is no room.
#[tactic(auto, using(crate::proofs::Headers::lengths))]
pub fn put(n: u16, buf: &mut [u8], to: usize) -> usize
    ensures { let w = length_octets n in
        (result ≡ put_end buf.old to w)
        × (buf.new ≡ put buf.old to w) }
{
    if n < 128 {
        return crate::put(&[n as u8], buf, to);
    }
    if n < 256 {
        return crate::put(&[129, n as u8], buf, to);
    }
    crate::put(&[130, (n / 256) as u8, (n % 256) as u8], buf, to)
}
