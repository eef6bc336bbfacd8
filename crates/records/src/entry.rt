// The entries of a table's index, one number a record: what is looked up of a record, and the places in the table to which it leads
// (FORMATS, "Tables"). Every function is total.
ghost use Rattle.std.specs.Prelude.{◌≡◌, false, not, ◌&&◌, ◌||◌, ◌<◌, ◌+◌, ◌*◌, ◌%◌, ◌^◌, eqb, leb, ltb, length, get_or};
ghost use Rattle.octets.specs.Numbers.{two};
ghost use Rattle.ber.specs.Codes.{code};
ghost use Rattle.table.specs.Reading.{numbers_at};
ghost use Rattle.records.specs.Entries.{unpacked, tag_count, tag_place, counted as Entries·counted, span_of, lists_number};

use crate::descriptor;
use crate::descriptor::of;
use kinds::Kind;
use octets::octet;

// No code of an identifier: it stands for the first identifier of a CHOICE without tags.
pub const UNTAGGED: u32 = 67108864;

// The explicit tags of a kind that lacks its own tag.
pub const LACKING: u8 = 127;

// The code of a record's first identifier, where its own part begins, its kind, how many of its tags are explicit, and whether its contents
// are simple: octets, and no items.
#[derive(Clone, Copy, Debug, PartialEq, Eq)]
pub struct Entry {
    pub code: u32,
    pub own: u16,
    pub kind: u8,
    pub explicit: u8,
    pub simple: bool,
}

#[tactic(auto, unfolding(crate::specs::Entries::unpacked))]
pub fn unpack(w: u64) -> Entry
    ensures { result ≡ unpacked w }
{
    Entry {
        code: first(w),
        own: (w / 4294967296 % 65536) as u16,
        kind: (w / 281474976710656 % 256) as u8,
        explicit: (w / 72057594037927936 % 128) as u8,
        simple: 9223372036854775808 <= w,
    }
}

// The code alone.
#[tactic(auto, unfolding(crate::specs::Entries::unpacked))]
pub fn first(w: u64) -> u32
    ensures { result ≡ (unpacked w).code }
{
    (w % 4294967296) as u32
}

// The entry of a message of type t, in which one item stands.
pub fn whole(t: u16) -> u64
    ensures { unpacked result ≡ record { code = 0; own = t; kind = 51; explicit = 0; simple = false } }
{
    (Kind::Message.octet() as u64 * 65536 + t as u64) * 4294967296
}

// How many tags it has.
#[tactic(auto, using(crate::proofs::Descriptors::count_kept))]
pub fn tag_count(e: Entry) -> usize
    ensures { (result ≡ tag_count e) × (result < 257) }
{
    descriptor::tag_count(of(e))
}

// The place of its j-th tag.
#[tactic(auto, using(crate::proofs::Descriptors::count_kept))]
pub fn tag_place(e: Entry, j: usize) -> usize
    ensures { (result ≡ tag_place e j) × (result < 65536) }
{
    descriptor::tag_place(of(e), j)
}

// The code of its j-th tag; the explicit ones are constructed, the last one as its kind is.
#[tactic(auto, using(crate::proofs::Descriptors::count_kept))]
pub fn tag_code(table: &[u8], e: Entry, j: usize) -> u32
    ensures { let p = tag_place e j in
        let b = table.now in
        result ≡ code (get_or b p 0) (ltb j e.explicit || not e.simple) (two b (p + 1)) }
{
    descriptor::tag_code(table, of(e), j)
}

// The parts of a record that is not simple: its members, its alternatives, or the one type of its elements. The place of the first,
// how many there are, and how far each is from the one before. A member's record number has 1 behind it if the member is optional.
#[derive(Clone, Copy, Debug, PartialEq, Eq)]
pub struct Span {
    pub first: usize,
    pub count: usize,
    pub step: usize,
}

// As many parts as the octet at p says, behind it, each `step` behind the one before.
pub(crate) fn counted(table: &[u8], p: usize, step: usize) -> Span
    requires { p < 65536 }
    ensures { result ≡ Entries·counted table.now p step }
{
    Span {
        first: p + 1,
        count: octet(table, p),
        step,
    }
}

// The alternatives of a CHOICE.
pub fn alternatives(table: &[u8], e: Entry) -> Span
    ensures { result ≡ Entries·counted table.now e.own 1 }
{
    descriptor::alternatives(table, of(e))
}

// The parts of any; a message has none in the table.
#[tactic(auto, using(crate::proofs::Descriptors::span_kept))]
pub fn parts(table: &[u8], e: Entry) -> Span
    ensures { result ≡ span_of table.now e.kind e.own }
{
    descriptor::parts(table, of(e))
}

// The record number of the j-th part; after the table 0. A place that is too large for a number wraps.
pub fn part(table: &[u8], s: Span, j: usize) -> usize
    ensures { (s.first + s.step * j < 2 ^ 64 → result ≡ get_or table.now (s.first + s.step * j) 0)
        × (result < 256)
        × (result ≡ get_or table.now ((s.first + s.step * j) % 2 ^ 64) 0) }
{
    octet(table, s.first.wrapping_add(s.step.wrapping_mul(j)))
}

// Whether the member at p is optional.
pub fn optional(table: &[u8], p: usize) -> bool
    ensures { result ≡ eqb (get_or table.now (p + 1) 0) 1 }
{
    octet(table, p.saturating_add(1)) == 1
}

// Whether an ENUMERATED whose numbers are all there lists a number.
pub fn lists(table: &[u8], e: Entry, z: i64) -> bool
    ensures { let b = table.now in
        let n = get_or b e.own 0 in
        result ≡ (leb (e.own + 1 + 2 * n) (length b) && lists_number (numbers_at b (e.own + 1) n) z) }
{
    descriptor::lists(table, of(e), z)
}
