// Entries whose kind is known: what is looked up of a record by what its entry describes (FORMATS, "Tables"). Every function is total.
ghost use Rattle.std.specs.Prelude.{◌≡◌, false, not, ◌&&◌, ◌||◌, ◌<◌, ◌+◌, ◌*◌, eqb, leb, ltb, length, get_or};
ghost use Rattle.octets.specs.Numbers.{two};
ghost use Rattle.ber.specs.Codes.{code};
ghost use Rattle.table.specs.Reading.{numbers_at};
ghost use Rattle.kinds.specs.Kinds.{octet_of};
ghost use Rattle.kinds.specs.declared.Kind.TheVariants.{Message};
ghost use Rattle.records.specs.Entries.{tag_count, tag_place, counted as Entries·counted, span_of, lists_number};
ghost use Rattle.records.specs.Descriptors.{descriptor_of, entry_of, described, number_of, entry_number_of};

use crate::entry::{Entry, LACKING, Span, counted, unpack};
use ber::identifier::code_of;
use kinds::Kind;
use octets::{holds, octet, two};

// An entry with the kind of its octet.
#[derive(Clone, Copy, Debug, PartialEq, Eq)]
pub struct Descriptor {
    pub code: u32,
    pub own: u16,
    pub kind: Kind,
    pub explicit: u8,
    pub simple: bool,
}

// Of an entry; an octet that no kind has counts as a message's.
#[inline(always)]
pub fn of(e: Entry) -> Descriptor
    ensures { result ≡ descriptor_of e }
{
    Descriptor {
        code: e.code,
        own: e.own,
        kind: Kind::or_message(e.kind),
        explicit: e.explicit,
        simple: e.simple,
    }
}

// The number of the descriptor of an entry, from the entry's number: the place of the kind stands where its octet stood. A compiler makes the
// kind of a place by one comparison, and the check, reading and writing take a descriptor apart for each record, item and value.
#[tactic(auto, unfolding(crate::specs::Descriptors::number_of))]
pub fn number(w: u64) -> u64
    ensures { result ≡ number_of w }
{
    let high = w / 72057594037927936;
    let kind = Kind::or_message((w / 281474976710656 % 256) as u8);
    (high * 256 + kind.place() as u64) * 281474976710656 + w % 281474976710656
}

// And back.
#[tactic(auto, unfolding(crate::specs::Descriptors::entry_number_of))]
pub fn entry_number(w: u64) -> u64
    ensures { result ≡ entry_number_of w }
{
    let high = w / 72057594037927936;
    let kind = Kind::at((w / 281474976710656 % 256) as u8);
    (high * 256 + kind.octet() as u64) * 281474976710656 + w % 281474976710656
}

// The descriptor of a number that has the place of its kind.
#[tactic(auto, unfolding(crate::specs::Descriptors::described))]
pub fn describe(w: u64) -> Descriptor
    ensures { result ≡ described w }
{
    let e = unpack(w);
    Descriptor {
        code: e.code,
        own: e.own,
        kind: Kind::at(e.kind),
        explicit: e.explicit,
        simple: e.simple,
    }
}

// The number of the descriptor of a message of type t, in which one item stands.
pub fn whole(t: u16) -> u64
    ensures { described result ≡ record { code = 0; own = t; kind = Message; explicit = 0; simple = false } }
{
    (Kind::Message.place() as u64 * 65536 + t as u64) * 4294967296
}

// How many tags it has.
#[tactic(auto, unfolding(crate::specs::Entries::tag_count))]
pub fn tag_count(d: Descriptor) -> usize
    ensures { (result ≡ tag_count (entry_of d)) × (result < 257) }
{
    if d.kind == Kind::Choice {
        return d.explicit as usize;
    }
    if d.explicit == LACKING {
        return 0;
    }
    d.explicit as usize + 1
}

// The place of its j-th tag.
pub fn tag_place(d: Descriptor, j: usize) -> usize
    ensures { (result ≡ tag_place (entry_of d) j) × (result < 65536) }
{
    let back = 3 * tag_count(d).saturating_sub(j);
    (d.own as usize).saturating_sub(back)
}

// The code of its j-th tag; the explicit ones are constructed, the last one as its kind is.
pub fn tag_code(table: &[u8], d: Descriptor, j: usize) -> u32
    ensures { let p = tag_place (entry_of d) j in
        let b = table.now in
        result ≡ code (get_or b p 0) (ltb j d.explicit || not d.simple) (two b (p + 1)) }
{
    let p = tag_place(d, j);
    let class = octet(table, p);
    let n = two(table, p + 1);
    let constructed = j < d.explicit as usize || !d.simple;
    code_of(class as u8, constructed, n as u16)
}

// The alternatives of a CHOICE.
pub fn alternatives(table: &[u8], d: Descriptor) -> Span
    ensures { result ≡ Entries·counted table.now d.own 1 }
{
    counted(table, d.own as usize, 1)
}

// The parts of any; a message has none in the table.
#[tactic(auto, unfolding(crate::specs::Entries::span_of))]
pub fn parts(table: &[u8], d: Descriptor) -> Span
    ensures { result ≡ span_of table.now (octet_of d.kind) d.own }
{
    let own = d.own as usize;
    if d.kind.has_members() {
        return counted(table, own, 2);
    }
    if d.kind == Kind::Choice {
        return counted(table, own, 1);
    }
    if d.kind.is_list() {
        return Span {
            first: own,
            count: 1,
            step: 0,
        };
    }
    Span {
        first: own,
        count: 0,
        step: 0,
    }
}

// Whether an ENUMERATED whose numbers are all there lists a number.
pub fn lists(table: &[u8], d: Descriptor, z: i64) -> bool
    ensures { let b = table.now in
        let n = get_or b d.own 0 in
        result ≡ (leb (d.own + 1 + 2 * n) (length b) && lists_number (numbers_at b (d.own + 1) n) z) }
{
    let Ok(k) = u64::try_from(z) else {
        return false;
    };
    let own = d.own as usize;
    let n = octet(table, own);
    let from = own + 1;
    if !holds(table, from, 2 * n) {
        return false;
    }
    for i in 0..n {
        let at = from + 2 * i;
        let second = at + 1;
        if table[at] as u64 * 256 + table[second] as u64 == k {
            return true;
        }
    }
    false
}
