// Identifier octets (X.690, 8.1.2), and the code by which they are compared: the leading octet and, in the long form, 256 for each unit of the tag number.
ghost use Rattle.std.specs.Prelude.{◌≡◌, ◌<◌, ◌≤◌, ◌+◌, ◌*◌, ◌%◌, min, length, get_or};
ghost use Rattle.octets.specs.Buffers.{put, put_end};
ghost use Rattle.ber.specs.Codes.{code, code_octets};
ghost use Rattle.x690.specs.Reading.{read_identifier};
ghost use Rattle.ber.specs.Told.{told_identifier};

use x690::ReadingCause;

// Identifier octets that were read: their code, and where they end.
#[derive(Clone, Copy, Debug, PartialEq, Eq)]
pub struct Identifier {
    pub code: u32,
    pub end: usize,
}

// The code of a tag, primitive or constructed.
#[tactic(auto, using(crate::proofs::Codes::codes))]
pub fn code_of(class: u8, constructed: bool, number: u16) -> u32
    ensures { (result ≡ code class constructed number) × (result < 16793600) }
{
    let lead = if constructed {
        class as u32 * 64 + 32
    } else {
        class as u32 * 64
    };
    if number < 31 {
        return lead + number as u32;
    }
    lead + 31 + 256 * number as u32
}

// The tag number after one octet more; 65,536 for all above 65,535.
fn follow(n: u32, d: u32) -> u32
    requires { (n < 65537) × (d < 256) }
    ensures { (result ≡ min 65536 (n * 128 + d % 128)) × (result < 65537) }
{
    let k = n * 128 + d % 128;
    if 65536 < k { 65536 } else { k }
}

// The long form, after its leading octet.
#[tactic(auto, using(crate::proofs::Told::long_identifiers))]
fn read_long(m: &[u8], lead: u32) -> Result<Identifier, ReadingCause>
    requires { (0 < length m.now) × (lead ≡ get_or m.now 0 0) × (31 ≤ lead % 32) }
    ensures { result ≡ told_identifier (length m.now) (read_identifier m.now) }
{
    let mut n: u32 = 0;
    for i in 1..m.len() {
        let d = m[i] as u32;
        n = follow(n, d);
        if d < 128 {
            let f = m[1];
            if f == 128 {
                return Err(ReadingCause::Forbidden);
            }
            if f < 31 {
                return Err(ReadingCause::Forbidden);
            }
            return Ok(Identifier {
                code: lead + 256 * n,
                end: i + 1,
            });
        }
    }
    Err(ReadingCause::Cut)
}

// The identifier that m begins with.
#[tactic(auto, using(crate::proofs::Told::identifiers))]
pub fn read(m: &[u8]) -> Result<Identifier, ReadingCause>
    ensures { result ≡ told_identifier (length m.now) (read_identifier m.now) }
{
    if m.len() == 0 {
        return Err(ReadingCause::Cut);
    }
    let lead = m[0] as u32;
    if lead % 32 < 31 {
        return Ok(Identifier { code: lead, end: 1 });
    }
    read_long(m, lead)
}

// How many octets the identifier of a code has.
#[tactic(auto, using(crate::proofs::Codes::octets))]
pub fn size(code: u32) -> usize
    ensures { (result ≡ length (code_octets code)) × (result < 5) }
{
    if code < 256 {
        return 1;
    }
    if code < 32768 {
        return 2;
    }
    if code < 4194304 {
        return 3;
    }
    4
}

// Puts the identifier of a code; where it ends, or the place itself if there is no room.
#[tactic(auto, using(crate::proofs::Codes::octets))]
pub fn put(code: u32, buf: &mut [u8], to: usize) -> usize
    ensures { let w = code_octets code in
        (result ≡ put_end buf.old to w)
        × (buf.new ≡ put buf.old to w) }
{
    let lead = (code % 256) as u8;
    if code < 256 {
        return crate::put(&[lead], buf, to);
    }
    if code < 32768 {
        return crate::put(&[lead, (code / 256) as u8], buf, to);
    }
    let low = (code / 256 % 128) as u8;
    if code < 4194304 {
        return crate::put(&[lead, (128 + code / 32768) as u8, low], buf, to);
    }
    let high = (128 + code / 4194304 % 128) as u8;
    let middle = (128 + code / 32768 % 128) as u8;
    crate::put(&[lead, high, middle, low], buf, to)
}
