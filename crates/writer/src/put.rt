// Puts the form of a value that was accepted into a buffer, front to back, by the notes of the judge (X.690, 8.1; 8.9 to 8.14).
ghost use Rattle.std.specs.Prelude.{[], ◌∷◌, ◌<◌, ◌≤◌, length};
ghost use Rattle.table.specs.Reading.{table_in, count_in};
ghost use Rattle.records.specs.Descriptors.{described};
ghost use Rattle.coding.specs.Form.{form_at};
ghost use Rattle.coding.specs.Judging.{judge_value};
ghost use Rattle.writer.specs.Notes.{NotedRow};
ghost use Rattle.writer.specs.Putting.{Fits, IsPut, Puts, PutBy};

use crate::{contents, frame, node};
use checker::passed::Passed;
use records::descriptor::{describe, parts, whole};

// Where values end, and where what was put of them ends in the buffer.
#[derive(Clone, Copy, Debug, PartialEq, Eq)]
pub struct Placed {
    pub end: usize,
    pub to: usize,
}

// The values in w, whose node has its own part at p.
fn put_members(
    table: &Passed,
    w: u64,
    v: &[u8],
    p: usize,
    notes: &[u16; 4096],
    buf: &mut [u8],
    to: usize,
) -> Placed
    requires { Puts table.now.octets.now v.now notes.now (described w) p to buf.old }
    ensures { (x : Puts table.now.octets.now v.now notes.now (described w) p to buf.old) → PutBy x buf.new result }
{
    // Taken out once: the loop then has them in registers.
    let octets = table.octets;
    let index = table.index;
    let e = describe(w);
    let s = parts(octets, e);
    let n = node::count(e, v, p);
    let mut at = node::start(e, v, p);
    let mut next = to;
    for i in 0..n {
        let Some(t) = node::below(octets, e, s, v, p, i) else {
            continue;
        };
        let x = index[t];
        let r = describe(x);
        let q = at + 3;
        let size = if r.simple {
            contents::size(r.kind, v, q)
        } else {
            notes[at / 4] as usize
        };
        next = frame::put(octets, x, size, buf, next);
        if r.simple {
            at = contents::put(r.kind, size, v, q, buf, next);
            next += size;
        } else {
            let y = put_members(table, x, v, q, notes, buf, next);
            at = y.end;
            next = y.to;
        }
    }
    Placed { end: at, to: next }
}

// A whole value of type t.
pub fn put(table: &Passed, t: usize, v: &[u8], notes: &[u16; 4096], buf: &mut [u8]) -> Placed
    requires { let b = table.now.octets.now in
        let T = table_in b in
        (length v.now ≤ 16384)
        × (t < count_in b)
        × NotedRow T v.now notes.now 24 (t ∷ []) 0
        × Fits (form_at T 24 t) (judge_value T 24 t v.now) 0 buf.old }
    ensures { let T = table_in table.now.octets.now in
        let o = v.now in
        IsPut (form_at T 24 t) (judge_value T 24 t o) o 0 buf.old buf.new result }
{
    put_members(table, whole(t as u16), v, 0, notes, buf, 0)
}
