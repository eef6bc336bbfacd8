// Contents octets of the simple kinds, judged and placed (X.690, 8.2 to 8.4, 8.6 to 8.8; FORMATS, "Times").
ghost use Rattle.std.specs.Prelude.{◌≡◌, ◌<◌, ◌≤◌, ◌+◌, ◌-◌, ◌*◌, length, get_or, drop, true, false, not, [], ◌∷◌, ◌++◌, eqb, pos, ◌⊎◌};
ghost use Rattle.table.specs.Syntax.{Record};
ghost use Rattle.table.specs.Reading.{body_at};
ghost use Rattle.kinds.specs.Kinds.{octet_of};
ghost use Rattle.records.specs.Descriptors.{Describes};
ghost use Rattle.reader.specs.Weights.{size_by};
ghost use Rattle.std.proofs.lemmas.List.Edits.{sets};
ghost use Rattle.octets.specs.Numbers.{octets_of, unless_zero};
ghost use Rattle.x690.specs.Integer.{integer_of, eight_of};
ghost use Rattle.x690.specs.BitString.{masked};
ghost use Rattle.x690.specs.Time.{time_of, is_time};
ghost use Rattle.dates.specs.Own.{time_octets};
ghost use Rattle.coding.specs.Value.{leaf_octets, flag};
ghost use Rattle.coding.specs.Reading.{natural};
ghost use Rattle.reader.specs.Answers.{told};
ghost use Rattle.reader.specs.Leaves.{leaf_of, Lawful, is_in_segments, read_leaf_in, leaf_size, ToPlaceLeaf, LeafPlaced};

use crate::answer::Judged;
use crate::node::{Placed, begin_node, put_number};
use clock::own;
use dates::TimeKind;
use digits::time;
use kinds::Kind;
use records::descriptor::{Descriptor, lists};
use simple::{bit_string, integer};
use x690::{ReadingCause, Unread};

// How many octets the value of contents of a simple record has, in an item that begins with the octet `lead`; none if they are wrong for it, or
// come in segments.
pub fn contents_size(table: &[u8], e: Descriptor, lead: u8, c: &[u8]) -> Option<usize>
    requires { (r : Record) × Describes table.now e r × (length c.now ≤ 8192) }
    ensures { let n = size_by (body_at table.now (octet_of e.kind) e.own) lead c.now in (result ≡ unless_zero n) × (n < 16386) }
{
    let n = c.len();
    match e.kind {
        Kind::Boolean => (n == 1).then_some(4),
        Kind::Integer => integer::is_integer(c).then_some(11),
        Kind::BitString => (!in_segments(lead) && bit_string::are_bits(c)).then_some(n + 4),
        Kind::OctetString => (!in_segments(lead)).then_some(n + 5),
        Kind::Null => (n == 0).then_some(3),
        Kind::Enumerated => (integer::is_integer(c) && lists(table, e, integer::of(c))).then_some(
            5,
        ),
        Kind::UtcTime | Kind::GeneralizedTime => time::is_time(e.kind.time(), c).then_some(10),
        _ => None,
    }
}

// Whether an item is constructed, by its leading octet; one of a simple kind then is a string in segments.
pub fn in_segments(lead: u8) -> bool
    ensures { result ≡ is_in_segments lead }
{
    31 < lead % 64
}

// How many octets the value of a string has whose segments join to contents of n octets.
fn string_size(kind: Kind, n: usize) -> usize
    requires { n ≤ 8193 }
    ensures { (octet_of kind ≡ 3 → result ≡ n + 4) × (octet_of kind ≡ 4 → result ≡ n + 5) }
{
    if kind == Kind::BitString {
        return n + 4;
    }
    n + 5
}

// Judges contents c of a simple record that have no size by themselves, in an item that begins with the octet `lead`: those of a string in
// segments, where they end and how many octets the value has; all others are refused. 00 00 closes them if `indefinite`; `left` octets are left
// where the item begins, and `behind` octets after c.
pub fn judge_segments(
    table: &[u8],
    e: Descriptor,
    lead: u8,
    c: &[u8],
    indefinite: bool,
    left: usize,
    behind: usize,
) -> Result<Judged, Unread>
    requires { (r : Record) × Describes table.now e r
        × (is_in_segments lead ≡ true → (octet_of e.kind ≡ 3) ⊎ (octet_of e.kind ≡ 4))
        × (length c.now ≤ 8192)
        × (behind ≤ 8192)
        × (e.simple ≡ true)
        × (indefinite ≡ false → size_by (body_at table.now (octet_of e.kind) e.own) lead c.now ≡ 0) }
    ensures { let d = c.now in
        result ≡ told d leaf_size (read_leaf_in (body_at table.now (octet_of e.kind) e.own) (is_in_segments lead) indefinite left behind d) }
{
    if !in_segments(lead) {
        let cause = if indefinite {
            ReadingCause::Forbidden
        } else {
            ReadingCause::Contents
        };
        return Err(Unread { cause, left });
    }
    match segments::read(c, indefinite, e.kind == Kind::BitString) {
        Ok(x) => Ok(Judged {
            end: x.end,
            size: string_size(e.kind, x.size),
        }),
        Err(u) => Err(Unread {
            cause: u.cause,
            left: u.left + behind,
        }),
    }
}

// What stands behind the mark and the kind, by the kind; where it ends.
fn put_flag(c: &[u8], buf: &mut [u8], to: usize) -> usize
    requires { (length c.now ≡ 1) × (to + 1 ≤ length buf.old) }
    ensures { (result ≡ to + 1) × (buf.new ≡ sets buf.old to (flag (not (eqb (get_or c.now 0 0) 0)) ∷ [])) }
{
    buf[to] = u8::from(c[0] != 0);
    to + 1
}

fn put_integer(c: &[u8], buf: &mut [u8], to: usize) -> usize
    requires { (1 ≤ length c.now) × (length c.now ≤ 8) × (to + 8 ≤ length buf.old) }
    ensures { (result ≡ to + 8) × (buf.new ≡ sets buf.old to (eight_of (integer_of c.now))) }
{
    let end = to + 8;
    integer::put_eight(integer::of(c), &mut buf[to..end]);
    end
}

fn put_bits(c: &[u8], buf: &mut [u8], to: usize) -> usize
    requires { (1 ≤ length c.now) × (length c.now ≤ 8192) × (get_or c.now 0 0 < 8) × (get_or c.now 0 0 ≤ 8 * length (drop 1 c.now))
        × (to + 2 + length (drop 1 c.now) ≤ length buf.old) }
    ensures { let u = get_or c.now 0 0 in let d = drop 1 c.now in
        (result ≡ to + 2 + length d) × (buf.new ≡ sets buf.old to (octets_of (8 * length d - u) ++ masked u d)) }
{
    let unused = c[0] as usize;
    let bits = &c[1..];
    put_number(buf, to, 8 * bits.len() - unused);
    let end = to + 2 + bits.len();
    bit_string::copy_masked(bits, unused, &mut buf[to + 2..end]);
    end
}

fn put_string(c: &[u8], buf: &mut [u8], to: usize) -> usize
    requires { (length c.now ≤ 8192) × (to + 2 + length c.now ≤ length buf.old) }
    ensures { let d = c.now in (result ≡ to + 2 + length d) × (buf.new ≡ sets buf.old to (octets_of (length d) ++ d)) }
{
    put_number(buf, to, c.len());
    let end = to + 2 + c.len();
    // `copy_from_slice` would ask for `memmove` (`octets::copy`).
    octets::copy(c, &mut buf[to + 2..end]);
    end
}

fn put_enumerated(c: &[u8], buf: &mut [u8], to: usize) -> usize
    requires { (1 ≤ length c.now) × (length c.now ≤ 8) × (to + 2 ≤ length buf.old)
        × (integer_of c.now ≡ pos (natural (integer_of c.now))) × (natural (integer_of c.now) < 65536) }
    ensures { (result ≡ to + 2) × (buf.new ≡ sets buf.old to (octets_of (natural (integer_of c.now)))) }
{
    put_number(buf, to, integer::of(c) as usize);
    to + 2
}

fn put_time(kind: TimeKind, c: &[u8], buf: &mut [u8], to: usize) -> usize
    requires { (is_time kind c.now ≡ true) × (to + 7 ≤ length buf.old) }
    ensures { (result ≡ to + 7) × (buf.new ≡ sets buf.old to (time_octets (time_of kind c.now))) }
{
    let end = to + 7;
    own::put(time::of(kind, c), &mut buf[to..end]);
    end
}

// Places the value of contents of a simple kind; where it ends.
pub fn place_contents(kind: Kind, c: &[u8], buf: &mut [u8], to: usize) -> usize
    requires { Lawful (octet_of kind) c.now × (length c.now ≤ 8192) × (to + length (leaf_octets (leaf_of (octet_of kind) c.now)) ≤ length buf.old) }
    ensures { let w = leaf_octets (leaf_of (octet_of kind) c.now) in (result ≡ to + length w) × (buf.new ≡ sets buf.old to w) }
{
    begin_node(buf, to, kind);
    let next = to + 3;
    match kind {
        Kind::Boolean => put_flag(c, buf, next),
        Kind::Integer => put_integer(c, buf, next),
        Kind::BitString => put_bits(c, buf, next),
        Kind::OctetString => put_string(c, buf, next),
        Kind::Null => next,
        Kind::Enumerated => put_enumerated(c, buf, next),
        _ => put_time(kind.time(), c, buf, next),
    }
}

// Places the value of a string whose segments stand in c; where they end, and the value.
pub fn place_segments(kind: Kind, c: &[u8], buf: &mut [u8], to: usize) -> Placed
    requires { ToPlaceLeaf (octet_of kind) c.now true (length buf.old) to }
    ensures { (p : ToPlaceLeaf (octet_of kind) c.now true (length buf.old) to)
        → LeafPlaced (octet_of kind) p.contents p.rest c.now buf.old to buf.new result }
{
    begin_node(buf, to, kind);
    let start = to + 5;
    let bits = kind == Kind::BitString;
    let x = segments::join(c, bits, buf, start);
    let n = x.next - start;
    if bits {
        bit_string::mask(x.unused, &mut buf[start..x.next]);
        put_number(buf, to + 3, 8 * n - x.unused);
    } else {
        put_number(buf, to + 3, n);
    }
    Placed {
        end: x.end,
        next: x.next,
    }
}
