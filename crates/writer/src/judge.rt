// Judges a value's octets, and measures the form of what is accepted; the length of the contents of each constructed node is noted at a
// quarter of its place (FORMATS, "Values").
ghost use Rattle.std.specs.Prelude.{◌≡◌, true, false, ℕ, ◌<◌, ◌≤◌, ◌+◌, ◌-◌, ltb, length, get_or, drop, [], ◌∷◌};
ghost use Rattle.table.specs.Syntax.{Table};
ghost use Rattle.table.specs.Octets.{kind};
ghost use Rattle.table.specs.Fields.{constructed_of};
ghost use Rattle.table.specs.Reading.{table_in, count_in};
ghost use Rattle.kinds.specs.Kinds.{octet_of};
ghost use Rattle.records.specs.Descriptors.{described};
ghost use Rattle.coding.specs.Form.{form_at};
ghost use Rattle.coding.specs.Judging.{agrees, judge_value};
ghost use Rattle.writer.specs.Nodes.{own_end, node_of, IsMarked};
ghost use Rattle.writer.specs.Known.{record_in, Known};
ghost use Rattle.writer.specs.Standing.{start_at, row_in, Standing};
ghost use Rattle.writer.specs.Rows.{judge_row, row_form, contents_form};
ghost use Rattle.writer.specs.Told.{unfit, told};
ghost use Rattle.writer.specs.Notes.{Noted, NotedRow, Noting};

use crate::contents::two;
use crate::{contents, frame, node};
use checker::passed::Passed;
use coding::{JudgingCause, LEVELS, Unfit};
use kinds::Kind;
use records::descriptor::{Descriptor, describe, lists, parts, whole};

// Where a part of the value ends, and how many octets are written of it, to 8,193.
#[derive(Clone, Copy, Debug, PartialEq, Eq)]
pub struct Judged {
    pub end: usize,
    pub size: usize,
}

fn unfit(cause: JudgingCause, place: usize) -> Result<Judged, Unfit>
    ensures { result ≡ unfit cause place }
{
    Err(Unfit { cause, place })
}

// Whether the shaped leaf of a record's kind with its own part at p agrees with the record: whether the number of an ENUMERATED is listed.
fn suits(table: &[u8], e: Descriptor, v: &[u8], p: usize) -> bool
    requires { (p < 20000)
        × (constructed_of (octet_of e.kind) ≡ false)
        × (0 < own_end (octet_of e.kind) v.now p)
        × Known table.now e }
    ensures { result ≡ agrees (record_in table.now e).body (node_of (octet_of e.kind) v.now p) }
{
    if e.kind == Kind::Enumerated {
        return lists(table, e, two(v, p) as i64);
    }
    true
}

// A leaf of a record's kind: where it ends, and how many contents octets it has.
fn judge_leaf(
    table: &[u8],
    e: Descriptor,
    v: &[u8],
    at: usize,
    level: usize,
) -> Result<Judged, Unfit>
    requires { (length v.now ≤ 16384)
        × IsMarked v.now at
        × (octet_of e.kind ≡ get_or v.now (at + 2) 0)
        × (constructed_of (octet_of e.kind) ≡ false)
        × Known table.now e }
    ensures { (T : Table) (t : ℕ) → (T t).body ≡ (record_in table.now e).body →
        result ≡ told (contents_form T (level - 1) (T t).body) v.now (judge_value T level t (drop at v.now)) }
{
    let p = at + 3;
    let Some(x) = contents::measure(e.kind, v, p) else {
        return unfit(JudgingCause::ValueShape, at);
    };
    if level == 0 {
        return unfit(JudgingCause::ValueLevel, at);
    }
    if !suits(table, e, v, p) {
        return unfit(JudgingCause::IllTyped, at);
    }
    Ok(Judged {
        end: x.end,
        size: frame::grow(0, x.size),
    })
}

// Whether the marked node at a place is shaped.
fn shaped(v: &[u8], at: usize) -> bool
    requires { (length v.now ≤ 16384)
        × (at + 3 ≤ length v.now) }
    ensures { result ≡ ltb 0 (own_end (get_or v.now (at + 2) 0) v.now (at + 3)) }
{
    let Some(kind) = Kind::of(v[at + 2]) else {
        return false;
    };
    if kind.constructed() {
        return node::own_end(v, kind, at + 3).is_some();
    }
    contents::measure(kind, v, at + 3).is_some()
}

// Why the marked node at a place is refused, whose kind is not the awaited record's.
fn why_not_awaited(v: &[u8], at: usize, level: usize) -> JudgingCause
    requires { (length v.now ≤ 16384)
        × IsMarked v.now at }
    ensures { (T : Table) (t : ℕ) → (get_or v.now (at + 2) 0 ≡ kind (T t).body → ⊥) →
        unfit result at ≡ told (contents_form T (level - 1) (T t).body) v.now (judge_value T level t (drop at v.now)) }
{
    if !shaped(v, at) {
        return JudgingCause::ValueShape;
    }
    if level == 0 {
        return JudgingCause::ValueLevel;
    }
    JudgingCause::IllTyped
}

// A constructed node of type t and of its record's kind: where its value ends, and how many contents octets it has.
#[cycle(judge_built_judge_members)]
fn judge_built(
    table: &Passed,
    t: usize,
    v: &[u8],
    at: usize,
    level: usize,
    notes: &mut [u16; 4096],
) -> Result<Judged, Unfit>
    requires { (length v.now ≤ 16384)
        × (t < count_in table.now.octets.now)
        × IsMarked v.now at
        × (octet_of (described (get_or table.now.index.now t 0)).kind ≡ get_or v.now (at + 2) 0)
        × (constructed_of (get_or v.now (at + 2) 0) ≡ true) }
    ensures { let T = table_in table.now.octets.now in
        let o = v.now in
        (result ≡ told (contents_form T (level - 1) (T t).body) o (judge_value T level t (drop at o)))
        × Noting at notes.old notes.new result (λ m. Noted T o m level t at) }
{
    let octets = table.octets;
    let index = table.index;
    let p = at + 3;
    let w = index[t];
    let e = describe(w);
    if node::own_end(v, e.kind, p).is_none() {
        return unfit(JudgingCause::ValueShape, at);
    }
    if level == 0 {
        return unfit(JudgingCause::ValueLevel, at);
    }
    if !node::agrees(octets, e, v, p) {
        return unfit(JudgingCause::IllTyped, at);
    }
    let judged = judge_members(table, w, v, p, level - 1, notes)?;
    notes[at / 4] = judged.size as u16;
    Ok(judged)
}

// The values in w, whose node has its own part at p.
#[cycle(judge_built_judge_members)]
fn judge_members(
    table: &Passed,
    w: u64,
    v: &[u8],
    p: usize,
    level: usize,
    notes: &mut [u16; 4096],
) -> Result<Judged, Unfit>
    requires { (length v.now ≤ 16384)
        × Standing table.now.octets.now v.now (described w) p }
    ensures { let b = table.now.octets.now in
        let T = table_in b in
        let o = v.now in
        let row = row_in b (described w) o p in
        let start = start_at (described w) o p in
        (result ≡ told (row_form T level row) o (judge_row T level row (drop start o)))
        × Noting start notes.old notes.new result (λ m. NotedRow T o m level row start) }
{
    // Taken out once: the loop then has them in registers.
    let octets = table.octets;
    let index = table.index;
    let e = describe(w);
    let s = parts(octets, e);
    let n = node::count(e, v, p);
    let mut at = node::start(e, v, p);
    let mut total = 0;
    for i in 0..n {
        let Some(t) = node::below(octets, e, s, v, p, i) else {
            continue;
        };
        if !node::marked(v, at) {
            return unfit(JudgingCause::ValueShape, at);
        }
        let x = index[t];
        let r = describe(x);
        if v[at + 2] != r.kind.octet() {
            return unfit(why_not_awaited(v, at, level), at);
        }
        let judged = if r.simple {
            judge_leaf(octets, r, v, at, level)?
        } else {
            judge_built(table, t, v, at, level, notes)?
        };
        at = judged.end;
        total = frame::grow(total, frame::size(octets, x, judged.size));
    }
    Ok(Judged {
        end: at,
        size: total,
    })
}

// A whole value of type t.
pub fn judge(table: &Passed, t: usize, v: &[u8], notes: &mut [u16; 4096]) -> Result<Judged, Unfit>
    requires { (length v.now ≤ 16384)
        × (t < count_in table.now.octets.now) }
    ensures { let T = table_in table.now.octets.now in
        let o = v.now in
        (result ≡ told (form_at T 24 t) o (judge_value T 24 t o))
        × Noting 0 notes.old notes.new result (λ m. NotedRow T o m 24 (t ∷ []) 0) }
{
    judge_members(table, whole(t as u16), v, 0, LEVELS, notes)
}
