// Strings in segments (X.690, 8.6.4 and 8.7.3): judged, with how long the contents are that they join to; and joined.
#![tactic(auto)]

ghost use Rattle.std.specs.Prelude.{◌≡◌, ◌<◌, length, drop};
ghost use Rattle.octets.specs.Answer.{got};
ghost use Rattle.octets.specs.Buffers.{put, put_end};
ghost use Rattle.x690.specs.Reading.{read_identifier};
ghost use Rattle.x690.specs.Segments.{universal, segment_tag, empty, in_form, read_all, read_segment, deepest};
ghost use Rattle.ber.specs.Told.{told_identifier, mode};
ghost use Rattle.segments.specs.Segments.{kind_of, unused_in, carried, told_segments, told_primitive, read_tag, joining, told_joined};

use ber::identifier::Identifier;
use ber::{ending, identifier, length};
use octets::octet;
use simple::bit_string::are_bits;
use x690::{ReadingCause, Unread};

// Segments nest at most so deep.
const DEEPEST: usize = 4;

// Where segments end, how many octets the contents have that they join to, how many bits of the last are unused, and how many octets
// before the end the last primitive one begins.
#[derive(Clone, Copy, Debug, PartialEq, Eq)]
pub struct Gathered {
    pub end: usize,
    pub size: usize,
    pub unused: usize,
    pub back: usize,
}

// The contents of no segment have so many octets: of a BIT STRING the number of unused bits.
#[tactic(auto, unfolding(x690::specs::Segments::empty))]
fn least(bits: bool) -> usize
    ensures { result ≡ length (empty (kind_of bits)) }
{
    if bits { 1 } else { 0 }
}

// The UNIVERSAL tag of a primitive segment; that of a constructed one is 32 more.
fn tag(bits: bool) -> u32
    ensures { (result ≡ universal (kind_of bits)) × (result < 5) }
{
    if bits { 3 } else { 4 }
}

// The identifier that m begins with, if it is a segment's.
#[tactic(auto, using(crate::proofs::SegmentCode::tags))]
fn read_tag(m: &[u8], bits: bool) -> Result<Identifier, ReadingCause>
    ensures { result ≡ told_identifier (length m.now) (read_tag (kind_of bits) m.now) }
{
    let i = identifier::read(m)?;
    let t = tag(bits);
    if i.code == t {
        return Ok(i);
    }
    if i.code == t + 32 {
        return Ok(i);
    }
    Err(ReadingCause::NotAwaited)
}

// Whether a primitive segment may have the contents c.
#[tactic(auto, unfolding(x690::specs::Segments::in_form))]
fn in_form(c: &[u8], bits: bool) -> bool
    ensures { result ≡ in_form (kind_of bits) c.now }
{
    if bits {
        return are_bits(c);
    }
    true
}

// How many bits of the last octet are unused.
#[tactic(auto, unfolding(crate::specs::Segments::unused_in))]
fn unused_in(c: &[u8], bits: bool) -> usize
    ensures { result ≡ unused_in (kind_of bits) c.now }
{
    if bits {
        return octet(c, 0);
    }
    0
}

// A primitive segment with the contents c, which ends at `end`; `left` octets are left where it begins.
#[tactic(auto, using(octets::proofs::Answer::run), unfolding(crate::specs::Segments::told_primitive))]
fn primitive(c: &[u8], bits: bool, end: usize, left: usize) -> Result<Gathered, Unread>
    ensures { result ≡ told_primitive (kind_of bits) c.now end left }
{
    if !in_form(c, bits) {
        return Err(Unread {
            cause: ReadingCause::Contents,
            left,
        });
    }
    let unused = unused_in(c, bits);
    Ok(Gathered {
        end,
        size: c.len(),
        unused,
        back: end,
    })
}

// The segment that m begins with, whose identifier ends at `from`; those in it nest less than `depth` deep.
#[cycle(all_segment)]
fn segment(
    m: &[u8],
    from: usize,
    constructed: bool,
    bits: bool,
    depth: usize,
) -> Result<Gathered, Unread>
    requires { read_identifier m.now ≡ got (segment_tag (kind_of bits) constructed) (drop from m.now) }
    ensures { result ≡ told_segments (kind_of bits) (length m.now) (read_segment (kind_of bits) depth m.now) }
{
    let left = m.len();
    if depth == 0 {
        return Err(Unread {
            cause: ReadingCause::MessageLevel,
            left,
        });
    }
    let x = length::read(m, from).map_err(|cause| Unread { cause, left })?;
    let c = &m[x.start..x.end];
    if !constructed {
        if x.indefinite {
            return Err(Unread {
                cause: ReadingCause::Forbidden,
                left,
            });
        }
        return primitive(c, bits, x.end, left);
    }
    match all(c, x.indefinite, bits, depth - 1) {
        Ok(y) => Ok(Gathered {
            end: x.start + y.end,
            ..y
        }),
        Err(e) => Err(Unread {
            left: e.left + (left - x.end),
            ..e
        }),
    }
}

// The segments in the contents m, which 00 00 closes if `indefinite`; they nest at most `depth` deep.
#[cycle(all_segment)]
fn all(m: &[u8], indefinite: bool, bits: bool, depth: usize) -> Result<Gathered, Unread>
    ensures { let k = kind_of bits in result ≡ told_segments k (length m.now) (read_all k (read_segment k depth) (mode indefinite) m.now) }
{
    let one = least(bits);
    let mut at: usize = 0;
    let mut size = one;
    let mut unused: usize = 0;
    let mut back: usize = 0;
    loop {
        let left = m.len() - at;
        let over = ending::read(m, at, indefinite).map_err(|cause| Unread { cause, left })?;
        if let Some(end) = over {
            return Ok(Gathered {
                end,
                size,
                unused,
                back: back + (end - at),
            });
        }
        let rest = &m[at..];
        let i = read_tag(rest, bits).map_err(|cause| Unread { cause, left })?;
        if 0 < unused {
            return Err(Unread {
                cause: ReadingCause::Contents,
                left: left + back,
            });
        }
        let x = segment(rest, i.end, 32 <= i.code, bits, depth)?;
        at += x.end;
        size = size - one + x.size;
        unused = x.unused;
        back = x.back;
    }
}

// The segments of a string in the contents m, which 00 00 closes if `indefinite`.
pub fn read(m: &[u8], indefinite: bool, bits: bool) -> Result<Gathered, Unread>
    ensures { let k = kind_of bits in result ≡ told_segments k (length m.now) (read_all k (read_segment k deepest) (mode indefinite) m.now) }
{
    all(m, indefinite, bits, DEEPEST)
}

// Where segments end in the message, and what they carry in the buffer; how many bits of the last are unused.
#[derive(Clone, Copy, Debug, PartialEq, Eq)]
pub struct Joined {
    pub end: usize,
    pub next: usize,
    pub unused: usize,
}

// Puts what the contents c of a segment carry; where it ends, or the place itself if there is no room.
fn put_carried(c: &[u8], bits: bool, buf: &mut [u8], to: usize) -> usize
    ensures { let d = carried (kind_of bits) c.now in
        (result ≡ put_end buf.old to d)
        × (buf.new ≡ put buf.old to d) }
{
    let one = least(bits);
    if c.len() < one {
        return to;
    }
    ber::put(&c[one..], buf, to)
}

// Joins segments that were read before: what they carry, without the numbers of unused bits, stands at `to` in the buffer. The contents m
// go to their end or to the 00 00 that closes them. What is nested is met in the same order, so headers and ends are passed over. What no
// reader accepts goes to the end of m where a header cannot be read, and what has no room is not put.
pub fn join(m: &[u8], bits: bool, buf: &mut [u8], to: usize) -> Joined
    ensures { let x = joining (kind_of bits) m.now buf.old to in
        (result ≡ told_joined (length m.now) x)
        × (buf.new ≡ x.buffer) }
{
    let mut at: usize = 0;
    let mut next = to;
    let mut unused: usize = 0;
    let mut open: usize = 1;
    while at < m.len() {
        let first = m[at];
        if first == 0 {
            at = m.len().min(at + 2);
            open -= 1;
            if open == 0 {
                return Joined {
                    end: at,
                    next,
                    unused,
                };
            }
        } else if let Ok(x) = length::read(m, at + 1) {
            if 32 <= first {
                at = x.start;
                if x.indefinite {
                    open += 1;
                }
            } else {
                let c = &m[x.start..x.end];
                next = put_carried(c, bits, buf, next);
                unused = unused_in(c, bits);
                at = x.end;
            }
        } else {
            return Joined {
                end: m.len(),
                next,
                unused,
            };
        }
    }
    Joined {
        end: at,
        next,
        unused,
    }
}
