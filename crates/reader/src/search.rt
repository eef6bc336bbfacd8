// The search for the part of a record that an item begins: a member, an element or an alternative, or a record under one through
// CHOICEs without tags (X.690, 8.13).
ghost use Rattle.std.specs.Prelude.{◌≡◌, List, ℕ, ◌≤◌, ◌<◌, length, drop, Some, Ok};
ghost use Rattle.table.specs.Reading.{table_in, count_in};
ghost use Rattle.kinds.specs.Kinds.{octet_of};
ghost use Rattle.records.specs.Entries.{span_of};
ghost use Rattle.records.specs.Descriptors.{described};
ghost use Rattle.reader.specs.Codes.{untagged, first_of};
ghost use Rattle.reader.specs.Records.{Begins, Finds};
ghost use Rattle.octets.specs.Numbers.{if_below};
ghost use Rattle.reader.specs.Sought.{held, Sound, tabled_count, direct as Sought·direct, unfit_cause, Indirect, Sought};
ghost use Rattle.reader.specs.Items.{manner, since};

use crate::came::lacks;
use ber::identifier;
use checker::passed::Passed;
use kinds::Kind;
use octets::octet;
use records::descriptor::{alternatives, describe, parts};
use records::entry::{Span, UNTAGGED, first, optional, part};
use x690::ReadingCause;

// Whether an item with the code begins the record of w itself. A string that stands under no explicit tag may be constructed too: then it is
// in segments.
pub fn begins(w: u64, code: u32) -> bool
    requires { (described w).code ≤ untagged }
    ensures { Begins w code result }
{
    let found = first(w);
    if found == code {
        return true;
    }
    if found + 32 != code {
        return false;
    }
    let e = describe(w);
    if e.explicit != 0 {
        return false;
    }
    e.kind.is_string()
}

// A record, and how many CHOICEs without tags stand above it.
#[derive(Clone, Copy, Debug, PartialEq, Eq)]
pub struct Under {
    pub record: usize,
    pub depth: usize,
}

// The record under the CHOICE t that begins with the code. The way to it is noted: for each CHOICE, from t on, 16 for each unit of its
// number, and which alternative is taken.
fn among(table: &Passed, t: usize, code: u32, way: &mut [u16; 128]) -> Option<Under>
    requires { (t < count_in table.now.octets.now)
        × (first_of (table_in table.now.octets.now t) ≡ untagged)
        × (code < untagged) }
    ensures { Finds table.now.octets.now code way.new t result }
{
    let mut depth: usize = 0;
    let mut choice = t;
    let mut j: usize = 0;
    loop {
        let s = alternatives(table.octets, describe(table.index[choice]));
        if j < s.count {
            let a = octet(table.octets, s.first + j);
            way[depth] = (16 * choice + j) as u16;
            if begins(table.index[a], code) {
                return Some(Under {
                    record: a,
                    depth: depth + 1,
                });
            }
            if first(table.index[a]) == UNTAGGED {
                depth += 1;
                choice = a;
                j = 0;
            } else {
                j += 1;
            }
        } else {
            if depth == 0 {
                return None;
            }
            depth -= 1;
            let n = way[depth] as usize;
            choice = n / 16;
            j = n % 16 + 1;
        }
    }
}

// The record that begins with the code: t, or one under it, to which the way is noted.
fn seek(table: &Passed, t: usize, code: u32, way: &mut [u16; 128]) -> Option<Under>
    requires { (t < count_in table.now.octets.now) × (code < untagged) }
    ensures { Finds table.now.octets.now code way.new t result }
{
    if begins(table.index[t], code) {
        return Some(Under {
            record: t,
            depth: 0,
        });
    }
    if first(table.index[t]) != UNTAGGED {
        return None;
    }
    among(table, t, code, way)
}

// The part by its place among the parts, the record that the item begins, how many CHOICEs without tags stand above that, and where
// the identifier ends.
#[derive(Clone, Copy, Debug, PartialEq, Eq)]
pub struct Choice {
    pub place: usize,
    pub record: usize,
    pub depth: usize,
    pub from: usize,
}

// The place of the first part from the i-th on that is awaited and begins with the code itself.
fn direct(table: &Passed, w: u64, i: usize, came: &[u16; 16], code: u32) -> Option<usize>
    requires { Sound table.now.octets.now table.now.index.now w came.now }
    ensures { let h = held table.now.octets.now w in result ≡ if_below (tabled_count h) (Sought·direct table.now.octets.now h i came.now code) }
{
    let e = describe(w);
    let s = parts(table.octets, e);
    for k in i..s.count {
        let p = s.first + s.step * k;
        if came[k] == 0 {
            let t = octet(table.octets, p);
            if begins(table.index[t], code) {
                return Some(k);
            }
        }
        if e.kind == Kind::Sequence {
            if !optional(table.octets, p) {
                return None;
            }
        }
    }
    None
}

// Why an item is refused: the cause given, or that it stands where nothing is awaited.
fn unawaited(
    table: &Passed,
    w: u64,
    i: usize,
    came: &[u16; 16],
    cause: ReadingCause,
) -> ReadingCause
    requires { Sound table.now.octets.now table.now.index.now w came.now × (since (manner (held table.now.octets.now w)) i ≡ i) }
    ensures { result ≡ unfit_cause (held table.now.octets.now w) i came.now cause }
{
    if describe(w).kind.has_members() {
        if !lacks(table, w, i, came, true) {
            return ReadingCause::Trailing;
        }
    }
    cause
}

// The first part from the i-th on that is awaited and begins with the code, itself or by a record under it; `from` is handed on.
fn indirect(
    table: &Passed,
    w: u64,
    i: usize,
    came: &[u16; 16],
    code: u32,
    from: usize,
    way: &mut [u16; 128],
) -> Result<Choice, ReadingCause>
    requires { Sound table.now.octets.now table.now.index.now w came.now × (since (manner (held table.now.octets.now w)) i ≡ i) × (code < untagged) }
    ensures { Indirect table.now.octets.now (held table.now.octets.now w) i came.now code from way.new result }
{
    let e = describe(w);
    let s = parts(table.octets, e);
    let whole = e.kind == Kind::Message;
    let n = if whole { 1 } else { s.count };
    for k in i..n {
        if came[k] == 0 {
            let t = if whole {
                e.own as usize
            } else {
                part(table.octets, s, k)
            };
            if let Some(x) = seek(table, t, code, way) {
                return Ok(Choice {
                    place: k,
                    record: x.record,
                    depth: x.depth,
                    from,
                });
            }
            if e.kind == Kind::Sequence {
                if !optional(table.octets, s.first + s.step * k) {
                    break;
                }
            }
        }
    }
    Err(unawaited(table, w, i, came, ReadingCause::NotAwaited))
}

// The part of w that the item at the beginning of m begins. Of a SEQUENCE the parts from the j-th on are awaited, up to the first that is
// not optional; of others all that have not come.
pub fn search(
    table: &Passed,
    w: u64,
    m: &[u8],
    j: usize,
    came: &[u16; 16],
    way: &mut [u16; 128],
) -> Result<Choice, ReadingCause>
    requires { Sound table.now.octets.now table.now.index.now w came.now }
    ensures { let h = held table.now.octets.now w in Sought table.now.octets.now h (since (manner h) j) came.now m.now way.new result }
{
    let e = describe(w);
    let s = parts(table.octets, e);
    let i = if e.kind == Kind::Sequence { j } else { 0 };
    let x = match identifier::read(m) {
        Ok(x) => x,
        Err(cause) => return Err(unawaited(table, w, i, came, cause)),
    };
    let Some(place) = direct(table, w, i, came, x.code) else {
        return indirect(table, w, i, came, x.code, x.end, way);
    };
    let record = part(table.octets, s, place);
    Ok(Choice {
        place,
        record,
        depth: 0,
        from: x.end,
    })
}

// The j-th part of w, whose parts stand in s, if it is awaited and the first octet of the item at a place of m is all of its identifier.
#[inline(always)]
pub fn in_turn(
    table: &Passed,
    w: u64,
    s: Span,
    m: &[u8],
    at: usize,
    j: usize,
    came: &[u16; 16],
) -> Option<Choice>
    requires { Sound table.now.octets.now table.now.index.now w came.now
        × (let e = described w in s ≡ span_of table.now.octets.now (octet_of e.kind) e.own)
        × (at < length m.now) }
    ensures { (x : Choice) → result ≡ Some x
        → (x.place ≡ j)
        × (x.depth ≡ 0)
        × ((way : List ℕ) → let h = held table.now.octets.now w in Sought table.now.octets.now h (since (manner h) j) came.now (drop at m.now) way (Ok x)) }
{
    if j < s.count && came[j] == 0 {
        let record = table.octets[s.first + s.step * j] as usize;
        if first(table.index[record]) == m[at] as u32 {
            return Some(Choice {
                place: j,
                record,
                depth: 0,
                from: 1,
            });
        }
    }
    None
}
