// The nodes of a value (FORMATS, "Values"), as the reader places them.
ghost use Rattle.std.specs.Prelude.{◌≡◌, true, false, [], ◌∷◌, ◌+◌, ◌*◌, ◌≤◌, ◌<◌, length, take};
ghost use Rattle.std.proofs.lemmas.List.Edits.{sets};
ghost use Rattle.octets.specs.Numbers.{octets_of};
ghost use Rattle.kinds.specs.Kinds.{octet_of};
ghost use Rattle.reader.specs.Placing.{has_members, node_of, opening_of, noted_in, absent_in, finished_in, way_octets};

use kinds::Kind;

// Where an item or contents end in the message, and their value in the buffer.
#[derive(Clone, Copy, Debug, PartialEq, Eq)]
pub struct Placed {
    pub end: usize,
    pub next: usize,
}

// How many octets the node of a constructed kind has before those in it, with n members. A message has none.
pub fn node_size(kind: Kind, n: usize) -> usize
    requires { n < 256 }
    ensures { result ≡ node_of (octet_of kind) n }
{
    match kind {
        Kind::Sequence | Kind::Set => 4 + n,
        Kind::SequenceOf | Kind::SetOf => 5,
        Kind::Choice => 4,
        _ => 0,
    }
}

// The mark of a node, and its kind.
pub fn begin_node(buf: &mut [u8], to: usize, kind: Kind)
    requires { to + 3 ≤ length buf.old }
    ensures { buf.new ≡ sets buf.old to (86 ∷ 65 ∷ octet_of kind ∷ []) }
{
    buf[to] = 86;
    buf[to + 1] = 65;
    buf[to + 2] = kind.octet();
}

// A number of two octets.
pub fn put_number(buf: &mut [u8], to: usize, n: usize)
    requires { (to + 2 ≤ length buf.old) × (n < 65536) }
    ensures { buf.new ≡ sets buf.old to (octets_of n) }
{
    buf[to..to + 2].copy_from_slice(&(n as u16).to_be_bytes());
}

// The node of a kind with n members, but for what stands in it; where it ends.
pub fn begin(kind: Kind, n: usize, buf: &mut [u8], to: usize) -> usize
    requires { (n < 256) × (to + length (opening_of (octet_of kind) n) ≤ length buf.old) × (to + node_of (octet_of kind) n ≤ length buf.old) }
    ensures { (result ≡ to + node_of (octet_of kind) n) × (buf.new ≡ sets buf.old to (opening_of (octet_of kind) n)) }
{
    if kind == Kind::Message {
        return to;
    }
    let size = node_size(kind, n);
    begin_node(buf, to, kind);
    if kind.has_members() {
        buf[to + 3] = n as u8;
    }
    to + size
}

// Says in the node at `to` that the members from the j-th on, up to the k-th, are absent.
pub fn put_absent(buf: &mut [u8], to: usize, j: usize, k: usize)
    requires { to + 4 + k ≤ length buf.old }
    ensures { buf.new ≡ absent_in j k buf.old to }
{
    for i in j..k {
        buf[to + 4 + i] = 0;
    }
}

// Says which member is present, or which alternative is taken.
pub fn put_place(kind: Kind, place: usize, buf: &mut [u8], to: usize)
    requires { (has_members (octet_of kind) ≡ true → to + 4 + place < length buf.old) × (octet_of kind ≡ 50 → (to + 3 < length buf.old) × (place < 256)) }
    ensures { buf.new ≡ noted_in (octet_of kind) place buf.old to }
{
    if kind.has_members() {
        buf[to + 4 + place] = 1;
    } else if kind == Kind::Choice {
        buf[to + 3] = place as u8;
    }
}

// Says, once contents are over, that the members from the j-th to the n-th are absent; of a list that it has `count` elements.
pub fn finish(kind: Kind, j: usize, n: usize, count: usize, buf: &mut [u8], to: usize)
    requires { (has_members (octet_of kind) ≡ true → to + 4 + n ≤ length buf.old) × (has_members (octet_of kind) ≡ false → (to + 5 ≤ length buf.old) × (count < 65536)) }
    ensures { buf.new ≡ finished_in (octet_of kind) j n count buf.old to }
{
    if kind.has_members() {
        put_absent(buf, to, j, n);
    } else {
        put_number(buf, to + 3, count);
    }
}

// The nodes of CHOICEs without tags, as many as `depth`, by the way that a search noted; where they end.
pub fn put_way(way: &[u16; 128], depth: usize, buf: &mut [u8], to: usize) -> usize
    requires { (depth ≤ length way.now) × (to + 4 * depth ≤ length buf.old) }
    ensures { (result ≡ to + 4 * depth) × (buf.new ≡ sets buf.old to (way_octets (take depth way.now))) }
{
    let mut next = to;
    for x in &way[..depth] {
        begin_node(buf, next, Kind::Choice);
        buf[next + 3] = (*x % 16) as u8;
        next += 4;
    }
    next
}
