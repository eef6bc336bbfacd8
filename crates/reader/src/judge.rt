// Judges a message: finds every refusal and how long the value is; nothing is written (X.690, 8.9 to 8.14; FORMATS, "Messages").
// m is the contents in which items stand, from their first octet on, or the message; places in it count from there. A refusal says how many
// octets are left from its place to the end of m.
ghost use Rattle.std.specs.Prelude.{◌≡◌, true, false, ℕ, ◌<◌, ◌≤◌, ◌⊎◌, length, take, drop, Ok};
ghost use Rattle.x690.specs.Reading.{read_length};
ghost use Rattle.ber.specs.Told.{end_of, told_length, mode};
ghost use Rattle.table.specs.Syntax.{Record};
ghost use Rattle.table.specs.Reading.{body_at, table_in, count_in};
ghost use Rattle.kinds.specs.Kinds.{octet_of};
ghost use Rattle.records.specs.Descriptors.{described, Describes};
ghost use Rattle.coding.specs.Reading.{read_value, read_message};
ghost use Rattle.reader.specs.Answers.{told, size};
ghost use Rattle.reader.specs.Items.{manner, since, read_held};
ghost use Rattle.reader.specs.Records.{record_in, read_record};
ghost use Rattle.reader.specs.Sought.{held, Sound};
ghost use Rattle.reader.specs.Standing.{standing};
ghost use Rattle.reader.specs.Judging.{ToJudge, ToJudgeValue};
ghost use Rattle.reader.specs.Leaves.{is_in_segments, leaf_size, read_leaf_in};

use crate::answer::{Judged, grow};
use crate::came::lacks;
use crate::contents::{contents_size, judge_segments};
use crate::node::node_size;
use crate::search::{in_turn, search};
use crate::tags::{Inner, close, open};
use ber::length::Extent;
use ber::{ending, length};
use checker::passed::Passed;
use coding::LEVELS;
use kinds::Kind;
use records::descriptor::{Descriptor, describe, parts, whole};
use x690::{ReadingCause, Unread};

// Where other octets begin, if the contents m of w are over at a place; none if an item follows. 00 00 closes them if `indefinite`. Awaited
// are members of a SEQUENCE from the j-th on, and members of a SET that have not come.
fn next(
    table: &Passed,
    w: u64,
    m: &[u8],
    at: usize,
    indefinite: bool,
    j: usize,
    came: &[u16; 16],
) -> Result<Option<usize>, ReadingCause>
    requires { Sound table.now.octets.now table.now.index.now w came.now × ((described w).simple ≡ false) }
    ensures { let h = held table.now.octets.now w in result ≡ standing h (since (manner h) j) came.now (end_of indefinite (length m.now) (drop at m.now)) }
{
    let e = describe(w);
    if e.kind.holds_one() {
        return Ok(None);
    }
    let i = if e.kind == Kind::Sequence { j } else { 0 };
    let Some(end) = ending::read(m, at, indefinite)? else {
        return Ok(None);
    };
    if e.kind.has_members() {
        if lacks(table, w, i, came, false) {
            return Err(ReadingCause::NotAwaited);
        }
    }
    Ok(Some(end))
}

// The contents of an item of m, of a record of this kind; x says where the item stands. A CHOICE has no length of its own.
fn extent(kind: Kind, m: &[u8], x: Inner) -> Result<Extent, ReadingCause>
    requires { x.end ≤ length m.now }
    ensures { (octet_of kind ≡ 50 → result ≡ Ok (record { start = x.at; end = x.end; indefinite = false }))
        × ((octet_of kind ≡ 50 → ⊥) → (l : ℕ) → let p = take x.end m.now in result ≡ told_length (length p) (read_length l (drop x.from p))) }
{
    if kind == Kind::Choice {
        return Ok(Extent {
            start: x.at,
            end: x.end,
            indefinite: false,
        });
    }
    length::read(&m[..x.end], x.from)
}

// The simple contents c of a record, in an item that begins with the octet `lead`. `left` octets are left where the item begins, and
// `behind` octets after c.
fn judge_contents(
    table: &[u8],
    e: Descriptor,
    lead: u8,
    c: &[u8],
    indefinite: bool,
    left: usize,
    behind: usize,
) -> Result<Judged, Unread>
    requires { (r : Record) × Describes table.now e r
        × (is_in_segments lead ≡ true → (octet_of e.kind ≡ 3) ⊎ (octet_of e.kind ≡ 4))
        × (length c.now ≤ 8192)
        × (behind ≤ 8192)
        × (e.simple ≡ true) }
    ensures { let d = c.now in
        result ≡ told d leaf_size (read_leaf_in (body_at table.now (octet_of e.kind) e.own) (is_in_segments lead) indefinite left behind d) }
{
    if !indefinite {
        if let Some(size) = contents_size(table, e, lead, c) {
            return Ok(Judged { end: c.len(), size });
        }
    }
    judge_segments(table, e, lead, c, indefinite, left, behind)
}

// The value of w at a place of m: explicit tags, length, and contents, simple ones or items. Its first identifier ends at `from`, and the
// values in it have `level` levels.
#[cycle(judge_members_judge_value)]
fn judge_value(
    table: &Passed,
    w: u64,
    m: &[u8],
    at: usize,
    from: usize,
    level: usize,
    way: &mut [u16; 128],
) -> Result<Judged, Unread>
    requires { ToJudgeValue table.now.octets.now table.now.index.now w m.now at from level }
    ensures { let b = table.now.octets.now in
        result ≡ told m.now size (read_record (table_in b) level (record_in b (described w)) (drop at m.now)) }
{
    let e = describe(w);
    let mut notes = [0u16; 4];
    let mut x = Inner {
        at,
        from,
        end: m.len(),
    };
    if 0 < e.explicit {
        x = open(table, w, m, at, from, &mut notes)?;
    }
    let left = m.len() - x.at;
    let y = match extent(e.kind, m, x) {
        Ok(y) => y,
        Err(cause) => return Err(Unread { cause, left }),
    };
    let start = y.start;
    let stop = y.end;
    let c = &m[start..stop];
    let behind = m.len() - stop;
    let inside = if e.simple {
        judge_contents(table.octets, e, m[x.at], c, y.indefinite, left, behind)?
    } else {
        match judge_members(table, w, c, y.indefinite, level, way) {
            Ok(z) => z,
            Err(u) => {
                return Err(Unread {
                    cause: u.cause,
                    left: u.left + behind,
                });
            }
        }
    };
    let over = start + inside.end;
    if 0 < e.explicit {
        return close(m, &notes, e.explicit as usize, over, x.end, inside.size);
    }
    Ok(Judged {
        end: over,
        size: inside.size,
    })
}

// The items in w: all of a SEQUENCE, a SET or a list, whose contents 00 00 closes if `indefinite`; or the one of a CHOICE or a message, with
// which m begins. Their values have `level` levels.
#[cycle(judge_members_judge_value)]
fn judge_members(
    table: &Passed,
    w: u64,
    m: &[u8],
    indefinite: bool,
    level: usize,
    way: &mut [u16; 128],
) -> Result<Judged, Unread>
    requires { ToJudge table.now.octets.now table.now.index.now w m.now level }
    ensures { let b = table.now.octets.now in
        result ≡ told m.now size (read_held (table_in b) (read_value (table_in b) level) (held b w) (mode indefinite) m.now) }
{
    let e = describe(w);
    let s = parts(table.octets, e);
    let mut came = [0u16; 16];
    let mut total = node_size(e.kind, s.count);
    let mut at: usize = 0;
    let mut j: usize = 0;
    loop {
        let left = m.len() - at;
        match next(table, w, m, at, indefinite, j, &came) {
            Ok(None) => {}
            Ok(Some(end)) => return Ok(Judged { end, size: total }),
            Err(cause) => return Err(Unread { cause, left }),
        }
        let x = match in_turn(table, w, s, m, at, j, &came) {
            Some(x) => x,
            None => match search(table, w, &m[at..], j, &came, way) {
                Ok(x) => x,
                Err(cause) => return Err(Unread { cause, left }),
            },
        };
        if level <= x.depth {
            return Err(Unread {
                cause: ReadingCause::MessageLevel,
                left,
            });
        }
        if e.kind == Kind::Set {
            came[x.place] = 1;
        }
        j = x.place + s.step / 2;
        let found = table.index[x.record];
        let below = level - x.depth - 1;
        let y = judge_value(table, found, m, at, at + x.from, below, way)?;
        at = y.end;
        total = grow(total, y.size + 4 * x.depth);
        if e.kind.holds_one() {
            return Ok(Judged {
                end: at,
                size: total,
            });
        }
    }
}

// A whole message of type t.
pub fn judge(table: &Passed, t: usize, m: &[u8], way: &mut [u16; 128]) -> Result<Judged, Unread>
    requires { (t < count_in table.now.octets.now)
        × (length m.now ≤ 8192) }
    ensures { result ≡ told m.now size (read_message (table_in table.now.octets.now) 24 t m.now) }
{
    if m.len() == 0 {
        return Err(Unread {
            cause: ReadingCause::Cut,
            left: 0,
        });
    }
    let x = judge_members(table, whole(t as u16), m, false, LEVELS, way)?;
    if x.end < m.len() {
        return Err(Unread {
            cause: ReadingCause::Trailing,
            left: m.len() - x.end,
        });
    }
    Ok(x)
}
