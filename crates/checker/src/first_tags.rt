// 4 and 5: a CHOICE without tags that comes back to itself, and first tags that two parts in one run share (FORMATS, "Tables" and "Refusals").
ghost use Rattle.std.specs.Prelude.{◌≡◌, true, false, not, ℕ, suc, ◌+◌, ◌-◌, ◌*◌, ◌≤◌, ◌<◌, get_or};
ghost use Rattle.octets.specs.Lists.{lowest};
ghost use Rattle.octets.specs.Numbers.{Octets, if_below};
ghost use Rattle.table.specs.Rules.{Clash};
ghost use Rattle.table.specs.Reading.{every_at, table_in, count_in};
ghost use Rattle.table.specs.Decide.{circular, sharing};
ghost use Rattle.table.specs.Walk.{like, Named, Straight};
ghost use Rattle.records.specs.Entries.{unpacked, untagged};
ghost use Rattle.records.specs.Descriptors.{Listed};
ghost use Rattle.checker.specs.Gathering.{like_in, tag_of, StandIns, Gathered, GatheredUnder, Compares, optional_in};

use crate::index::Indexed;
use kinds::Kind;
use octets::octet;
use records::descriptor::{alternatives, describe, parts};
use records::entry::{Span, UNTAGGED, first, optional};

// The first tag of an entry: its code but for the bit that says constructed.
fn first_tag(w: u64) -> u32
    ensures { result ≡ tag_of (unpacked w).code }
{
    let c = first(w);
    c - c / 32 % 2 * 32
}

// The lowest record with the first tag of record t; t itself, if that is a CHOICE without tags.
fn lowest_like(index: &[u64; 128], t: usize) -> usize
    requires { t < 128 }
    ensures { result ≡ like_in index.now t }
{
    let tag = first_tag(index[t]);
    if tag == UNTAGGED {
        return t;
    }
    (0..t).find(|&u| first_tag(index[u]) == tag).unwrap_or(t)
}

// For each record the one that stands for its first tag.
#[tactic(auto, using(crate::proofs::Alike::like_in_low))]
pub(crate) fn stand_ins(w: &Indexed) -> [u8; 128]
    ensures { (t : ℕ) → t < w.now.count → get_or result t 0 ≡ like (table_in w.now.table.now) t }
{
    let mut nodes = [0u8; 128];
    for t in 0..w.count {
        nodes[t] = lowest_like(w.index, t) as u8;
    }
    nodes
}

// A table, its index, what stands for each of its records by its first tag, and how many there are.
#[derive(Clone, Copy)]
pub(crate) struct Known<'a> {
    pub table: &'a [u8],
    pub index: &'a [u64; 128],
    pub nodes: &'a [u8; 128],
    pub count: usize,
    ghost octets: { Octets table.now },
    ghost counted: { count ≡ count_in table.now },
    ghost filled: { Listed table.now index.now (count_in table.now) },
    ghost ready: { StandIns (table_in table.now) (count_in table.now) nodes.now },
    ghost named: { Named (table_in table.now) (count_in table.now) },
}

// Where the mark stands that a walk puts: after the flags of the 128 records. As a parameter it would widen each frame of `gather` and
// `gather_under`, a recursion of up to 127 calls.
const MARK: usize = 128;

// Marks what stands for record t, and for the records under it through CHOICEs without tags. True if another mark was met.
#[cycle(gather_gather_under)]
fn gather(w: &Known, flags: &mut [u8; 129], t: usize) -> bool
    requires { t < count_in w.now.table.now }
    ensures { Gathered (table_in w.now.table.now) (get_or flags.old 128 0) flags.old t result flags.new }
{
    let q = w.nodes[t] as usize;
    let f = flags[q];
    let mark = flags[MARK];
    if f == mark {
        return false;
    }
    if f != 0 {
        return true;
    }
    flags[q] = mark;
    if first(w.index[t]) != UNTAGGED {
        return false;
    }
    gather_under(w, flags, t)
}

// The same for the alternatives of the CHOICE without tags t.
#[cycle(gather_gather_under)]
fn gather_under(w: &Known, flags: &mut [u8; 129], t: usize) -> bool
    requires { (t < count_in w.now.table.now) × ((unpacked (get_or w.now.index.now t 0)).code ≡ untagged) }
    ensures { GatheredUnder (table_in w.now.table.now) (get_or flags.old 128 0) flags.old t result flags.new }
{
    let s = alternatives(w.table, describe(w.index[t]));
    for at in s.first..s.first + s.count {
        if gather(w, flags, octet(w.table, at)) {
            return true;
        }
    }
    false
}

// Whether record t is a CHOICE without tags that reaches itself through such CHOICEs alone.
fn is_circular(w: &Known, t: usize) -> bool
    requires { t < count_in w.now.table.now }
    ensures { result ≡ circular (table_in w.now.table.now) (count_in w.now.table.now) t }
{
    if first(w.index[t]) != UNTAGGED {
        return false;
    }
    let mut flags = [0u8; 129];
    flags[MARK] = 1;
    gather_under(w, &mut flags, t);
    flags[t] != 0
}

// The lowest record that is circular.
pub(crate) fn lowest_circular(w: &Known) -> Option<usize>
    ensures { let n = w.now.count in result ≡ if_below n (lowest (circular (table_in w.now.table.now) n) n) }
{
    (0..w.count).find(|&t| is_circular(w, t))
}

// Whether two of the parts have a first tag in common.
fn clash(w: &Known, s: Span) -> bool
    requires { Compares w.now.table.now s }
    ensures { let b = w.now.table.now in
        let C = Clash (table_in b) (every_at s.step b s.first s.count) (λ k. true) in
        (result ≡ true → C) × (result ≡ false → C → ⊥) }
{
    if s.count < 2 {
        return false;
    }
    let mut flags = [0u8; 129];
    for k in 0..s.count {
        flags[MARK] = k as u8 + 1;
        let a = octet(w.table, s.first + s.step * k);
        if gather(w, &mut flags, a) {
            return true;
        }
    }
    false
}

// How many of the members from the place `at` on stand in one run: optional ones, if any, and the mandatory one after them, if any.
fn run_length(table: &[u8], at: usize, left: usize) -> usize
    requires { (0 < left) × (at + 3 * left ≤ 100000) }
    ensures { result ≡ suc (lowest (λ k. not (optional_in table.now at k)) (left - 1)) }
{
    match (0..left - 1).find(|&k| !optional(table, at + 2 * k)) {
        Some(k) => k + 1,
        None => left,
    }
}

// Whether two members of one run have a first tag in common.
fn clash_in_a_run(w: &Known, s: Span) -> bool
    requires { Compares w.now.table.now s × (s.step ≡ 2) }
    ensures { let b = w.now.table.now in
        let C = Clash (table_in b) (every_at 2 b s.first s.count) (optional_in b s.first) in
        (result ≡ true → C) × (result ≡ false → C → ⊥) }
{
    let mut first = s.first;
    let mut left = s.count;
    while 0 < left {
        let count = run_length(w.table, first, left);
        let r = Span {
            first,
            count,
            step: 2,
        };
        if clash(w, r) {
            return true;
        }
        first += 2 * count;
        left -= count;
    }
    false
}

// Whether a record is refused: a SEQUENCE if two members of one run share a first tag, a SET or a CHOICE if any two parts do; a simple one never.
fn is_sharing(w: &Known, t: usize) -> bool
    requires { let b = w.now.table.now in Straight (table_in b) (count_in b) × (t < count_in b) }
    ensures { result ≡ sharing (table_in w.now.table.now) (count_in w.now.table.now) t }
{
    let e = describe(w.index[t]);
    if e.simple {
        return false;
    }
    let s = parts(w.table, e);
    if e.kind == Kind::Sequence {
        return clash_in_a_run(w, s);
    }
    clash(w, s)
}

// The lowest record whose parts share a first tag.
pub(crate) fn lowest_sharing(w: &Known) -> Option<usize>
    requires { Straight (table_in w.now.table.now) w.now.count }
    ensures { let n = w.now.count in result ≡ if_below n (lowest (sharing (table_in w.now.table.now) n) n) }
{
    (0..w.count).find(|&t| is_sharing(w, t))
}
