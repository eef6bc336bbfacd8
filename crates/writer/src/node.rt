// The constructed nodes of a value (FORMATS, "Values"): their shape, whether they agree with a record, and what stands in them. A node's
// own part is at p. A message counts as a node without an own part, in which one value stands.
ghost use Rattle.std.specs.Prelude.{◌≡◌, true, ◌<◌, ◌≤◌, ◌+◌, ◌↔◌, Some, None, IsTrue, EachIndex, slice_index, ltb, length};
ghost use Rattle.octets.specs.Tests.{if};
ghost use Rattle.octets.specs.Numbers.{unless_zero, if_below};
ghost use Rattle.table.specs.Fields.{constructed_of};
ghost use Rattle.table.specs.Reading.{every_at, members_at};
ghost use Rattle.coding.specs.Judging.{flags, agreeing, agrees as Judging·agrees};
ghost use Rattle.kinds.specs.Kinds.{octet_of};
ghost use Rattle.writer.specs.Nodes.{members_end, own_end, node_of, Marked};
ghost use Rattle.writer.specs.Known.{record_in};
ghost use Rattle.writer.specs.Standing.{start_at, count_at, parts_of, below_at, Standing};

use crate::contents;
use kinds::Kind;
use octets::octet;
use records::descriptor::{Descriptor, parts};
use records::entry::{Span, optional, part};

// Whether the octets of a node with its mark are there, to its kind.
#[tactic(auto, unfolding(crate::specs::Nodes::end_at))]
pub fn marked(v: &[u8], at: usize) -> bool
    requires { at ≤ 16384 }
    ensures { Marked v.now at result }
{
    if v.len() < at + 3 {
        return false;
    }
    if v[at] != 0x56 {
        return false;
    }
    v[at + 1] == 0x41
}

// Whether each octet is 0 or 1.
fn are_flags(octets: &[u8]) -> bool
    ensures { IsTrue result ↔ EachIndex octets.now (λ k. slice_index octets.now k < 2) }
{
    octets.iter().all(|x| *x < 2)
}

// Where the presence of members ends, if it is shaped.
fn members_end(v: &[u8], p: usize) -> Option<usize>
    requires { p < 20000 }
    ensures { result ≡ unless_zero (members_end v.now p) }
{
    let start = p + 1;
    let end = start + octet(v, p);
    if v.len() < end {
        return None;
    }
    if !are_flags(&v[start..end]) {
        return None;
    }
    Some(end)
}

// e, if so many octets are there.
pub fn fixed_end(v: &[u8], e: usize) -> Option<usize>
    ensures { result ≡ (if (ltb (length v.now) e) None λ _. Some e) }
{
    if v.len() < e {
        return None;
    }
    Some(e)
}

// Where the own part of a node of a constructed kind ends, if it is shaped.
#[tactic(auto, unfolding(crate::specs::Nodes::own_end, crate::specs::Nodes::members_end, crate::specs::Nodes::fixed_end))]
pub fn own_end(v: &[u8], kind: Kind, p: usize) -> Option<usize>
    requires { (p < 20000)
        × (constructed_of (octet_of kind) ≡ true) }
    ensures { result ≡ unless_zero (own_end (octet_of kind) v.now p) }
{
    match kind {
        Kind::Sequence | Kind::Set => members_end(v, p),
        Kind::SequenceOf | Kind::SetOf => fixed_end(v, p + 2),
        Kind::Choice => fixed_end(v, p + 1),
        _ => None,
    }
}

// Whether the mandatory ones of the n members from p on are present; which are present says v, from q on.
fn is_complete(table: &[u8], p: usize, n: usize, v: &[u8], q: usize) -> bool
    requires { (p < 70000)
        × (n < 256)
        × (q + n ≤ length v.now) }
    ensures { result ≡ agreeing (members_at table.now p n) (flags (every_at 1 v.now q n)) }
{
    for i in 0..n {
        if v[q + i] != 1 {
            if !optional(table, p + 2 * i) {
                return false;
            }
        }
    }
    true
}

// Whether the shaped node of a record's kind, which is constructed, agrees with the record.
pub fn agrees(table: &[u8], e: Descriptor, v: &[u8], p: usize) -> bool
    requires { (p < 20000)
        × (constructed_of (octet_of e.kind) ≡ true)
        × (0 < own_end (octet_of e.kind) v.now p) }
    ensures { result ≡ Judging·agrees (record_in table.now e).body (node_of (octet_of e.kind) v.now p) }
{
    let s = parts(table, e);
    match e.kind {
        Kind::Sequence | Kind::Set => {
            if v[p] as usize != s.count {
                return false;
            }
            is_complete(table, s.first, s.count, v, p + 1)
        }
        Kind::Choice => (v[p] as usize) < s.count,
        _ => true,
    }
}

// Where the first value begins that stands in a node.
#[tactic(auto, unfolding(crate::specs::Standing::start_at))]
pub fn start(e: Descriptor, v: &[u8], p: usize) -> usize
    requires { start_at e v.now p ≤ length v.now }
    ensures { result ≡ start_at e v.now p }
{
    match e.kind {
        Kind::Message => p,
        Kind::Sequence | Kind::Set => p + 1 + v[p] as usize,
        Kind::Choice => p + 1,
        _ => p + 2,
    }
}

// How many values stand in it, at most.
#[tactic(auto, unfolding(crate::specs::Standing::start_at, crate::specs::Standing::count_at))]
pub fn count(e: Descriptor, v: &[u8], p: usize) -> usize
    requires { start_at e v.now p ≤ length v.now }
    ensures { (result ≡ count_at e v.now p)
        × (result < 65536) }
{
    match e.kind {
        Kind::Sequence | Kind::Set => v[p] as usize,
        Kind::Choice | Kind::Message => 1,
        _ => contents::two(v, p),
    }
}

// The record number of the i-th of them, where s are the parts of e; none for a member that is not present, or a type
// that no table has.
#[tactic(auto, unfolding(crate::specs::Standing::start_at, crate::specs::Standing::count_at, crate::specs::Standing::part_of, crate::specs::Standing::below_at))]
pub fn below(table: &[u8], e: Descriptor, s: Span, v: &[u8], p: usize, i: usize) -> Option<usize>
    requires { (s ≡ parts_of table.now e)
        × Standing table.now v.now e p
        × (i < count_at e v.now p) }
    ensures { result ≡ if_below 256 (below_at table.now e v.now p i) }
{
    if e.kind.has_members() {
        if v[p + 1 + i] != 1 {
            return None;
        }
        return Some(part(table, s, i));
    }
    if e.kind == Kind::Choice {
        return Some(part(table, s, v[p] as usize));
    }
    if e.kind == Kind::Message {
        let t = e.own as usize;
        return (t < 256).then_some(t);
    }
    Some(part(table, s, 0))
}
