// Places the value of a message that was judged: no refusal is left, and what would be one is passed over.
// m is the contents in which items stand, from their first octet on, or the message; places in it count from there. `to` is a place in
// the buffer.
ghost use Rattle.std.specs.Prelude.{◌≡◌, false, List, ℕ, ◌<◌, ◌≤◌, length, drop};
ghost use Rattle.std.proofs.lemmas.List.Edits.{sets};
ghost use Rattle.octets.specs.Answer.{got};
ghost use Rattle.table.specs.Reading.{count_in};
ghost use Rattle.coding.specs.Value.{Value, octets};
ghost use Rattle.reader.specs.Items.{message};
ghost use Rattle.reader.specs.Sought.{held};
ghost use Rattle.reader.specs.Placed.{ToPlace, ToPlaceValue, Fits, IsPlaced, held_in, value_in};

use crate::contents::{in_segments, place_contents, place_segments};
use crate::node::{Placed, begin, finish, put_absent, put_place, put_way};
use crate::search::{in_turn, search};
use crate::set::{behind, following, locate};
use crate::tags::{Inner, close, open};
use ber::{ending, length};
use checker::passed::Passed;
use kinds::Kind;
use records::descriptor::{describe, parts, whole};

// The value of w at a place of m: explicit tags, length, and contents, simple ones or items. Its first identifier ends at `from`.
#[cycle(place_members_place_value)]
fn place_value(
    table: &Passed,
    w: u64,
    m: &[u8],
    at: usize,
    from: usize,
    buf: &mut [u8],
    to: usize,
    way: &mut [u16; 128],
) -> Placed
    requires { ToPlaceValue table.now.octets.now table.now.index.now w m.now at from buf.old to }
    ensures { IsPlaced (value_in table.now.octets.now w (drop at m.now)) m.now to buf.old buf.new result }
{
    let e = describe(w);
    let mut notes = [0u16; 4];
    let mut inner = Inner {
        at,
        from,
        end: m.len(),
    };
    if 0 < e.explicit {
        if let Ok(x) = open(table, w, m, at, from, &mut notes) {
            inner = x;
        }
    }
    let at = inner.at;
    let end = inner.end;
    let around = &m[..end];
    let mut start = at;
    let mut stop = end;
    let mut indefinite = false;
    if e.kind != Kind::Choice {
        let x = length::again(around, inner.from);
        start = x.start;
        stop = x.end;
        indefinite = x.indefinite;
    }
    let mut next = to;
    if e.simple {
        let c = &m[start..stop];
        if in_segments(m[at]) {
            let x = place_segments(e.kind, c, buf, to);
            stop = start + x.end;
            next = x.next;
        } else {
            next = place_contents(e.kind, c, buf, to);
        }
    } else {
        let c = &m[start..stop];
        let x = place_members(table, w, c, indefinite, buf, to, way);
        stop = start + x.end;
        next = x.next;
    }
    if 0 < e.explicit {
        if let Ok(x) = close(m, &notes, e.explicit as usize, stop, end, 0) {
            stop = x.end;
        }
    }
    Placed { end: stop, next }
}

// The items in w, in the table's order: all of a SEQUENCE, a SET or a list, whose contents 00 00 closes if `indefinite`; or the one of a
// CHOICE or a message, with which m begins.
#[cycle(place_members_place_value)]
fn place_members(
    table: &Passed,
    w: u64,
    m: &[u8],
    indefinite: bool,
    buf: &mut [u8],
    to: usize,
    way: &mut [u16; 128],
) -> Placed
    requires { ToPlace table.now.octets.now table.now.index.now w m.now indefinite buf.old to }
    ensures { let b = table.now.octets.now in
        IsPlaced (held_in b (held b w) indefinite m.now) m.now to buf.old buf.new result }
{
    // Taken out once: the loop then has them in registers.
    let octets = table.octets;
    let index = table.index;
    let e = describe(w);
    let s = parts(octets, e);
    let none = [0u16; 16];
    let mut began = [0u16; 16];
    let mut last: usize = 0;
    if e.kind == Kind::Set {
        last = locate(table, w, m, indefinite, &mut began, way);
    }
    let mut next = begin(e.kind, s.count, buf, to);
    let mut at: usize = 0;
    let mut j: usize = 0;
    let mut count: usize = 0;
    loop {
        if e.kind == Kind::Set {
            let Some(k) = following(&began, j, s.count) else {
                put_absent(buf, to, j, s.count);
                return Placed { end: last, next };
            };
            put_absent(buf, to, j, k);
            at = began[k] as usize - 1;
            j = k;
        } else if !e.kind.holds_one() {
            if ending::is_over(m, at, indefinite) {
                finish(e.kind, j, s.count, count, buf, to);
                return Placed {
                    end: behind(at, indefinite),
                    next,
                };
            }
        }
        let x = match in_turn(table, w, s, m, at, j, &none) {
            Some(x) => x,
            None => {
                let Ok(x) = search(table, w, &m[at..], j, &none, way) else {
                    return Placed { end: at, next };
                };
                next = put_way(way, x.depth, buf, next);
                if e.kind.has_members() {
                    put_absent(buf, to, j, x.place);
                }
                x
            }
        };
        put_place(e.kind, x.place, buf, to);
        j = x.place + s.step / 2;
        let found = index[x.record];
        let y = place_value(table, found, m, at, at + x.from, buf, next, way);
        at = y.end;
        next = y.next;
        count += 1;
        if e.kind.holds_one() {
            return Placed { end: at, next };
        }
    }
}

// The value of a whole message of type t.
pub fn place(table: &Passed, t: usize, m: &[u8], buf: &mut [u8], way: &mut [u16; 128])
    requires { (t < count_in table.now.octets.now)
        × (length m.now ≤ 8192)
        × Fits (held_in table.now.octets.now (message t) false m.now) 0 buf.old }
    ensures { (v : Value) → (rest : List ℕ)
        → held_in table.now.octets.now (message t) false m.now ≡ got v rest
        → buf.new ≡ sets buf.old 0 (octets v) }
{
    place_members(table, whole(t as u16), m, false, buf, 0, way);
}
