// 6: a record with no finite value (FORMATS, "Tables" and "Refusals").
ghost use Rattle.std.specs.Prelude.{◌≡◌, ◌||◌, ◌<◌};
ghost use Rattle.octets.specs.Lists.{any, all, lowest};
ghost use Rattle.octets.specs.Numbers.{if_below};
ghost use Rattle.table.specs.Syntax.{Record};
ghost use Rattle.table.specs.Reading.{members_at, every_at, table_in};
ghost use Rattle.table.specs.Decide.{finite_body, infinite};
ghost use Rattle.checker.specs.Marks.{is_flagged, Looked};
ghost use Rattle.records.specs.Entries.{Near};
ghost use Rattle.records.specs.Descriptors.{Describes};

use crate::index::Indexed;
use kinds::Kind;
use octets::octet;
use records::descriptor::{Descriptor, alternatives, describe, parts};
use records::entry::{Span, optional};

// Whether record t is flagged; a number that is not there is not.
#[tactic(auto, using(crate::proofs::Marks::flagged_beyond), unfolding(crate::specs::Marks::is_flagged))]
fn flagged(flags: &[u8; 128], t: usize) -> bool
    ensures { result ≡ is_flagged flags.now t }
{
    t < 128 && flags[t] != 0
}

// Whether each member is optional or flagged.
fn each_flagged(table: &[u8], flags: &[u8; 128], s: Span) -> bool
    requires { Near s }
    ensures { result ≡ all (λ m. m.optional || is_flagged flags.now m.type) (members_at table.now s.first s.count) }
{
    (0..s.count).all(|k| {
        let at = s.first + 2 * k;
        optional(table, at) || flagged(flags, octet(table, at))
    })
}

// Whether one of the alternatives is flagged.
fn one_flagged(table: &[u8], flags: &[u8; 128], s: Span) -> bool
    requires { Near s }
    ensures { result ≡ any (is_flagged flags.now) (every_at 1 table.now s.first s.count) }
{
    (0..s.count).any(|k| flagged(flags, octet(table, s.first + k)))
}

// Whether a record has a finite value, if the flagged ones have.
fn found(table: &[u8], flags: &[u8; 128], e: Descriptor) -> bool
    ensures { (x : Record) → Describes table.now e x → result ≡ finite_body (is_flagged flags.now) x.body }
{
    match e.kind {
        Kind::Sequence | Kind::Set => each_flagged(table, flags, parts(table, e)),
        Kind::Choice => one_flagged(table, flags, alternatives(table, e)),
        _ => true,
    }
}

// Marks what is found of the records, the last first; true if any was.
fn round(w: &Indexed, flags: &mut [u8; 128]) -> bool
    ensures { Looked (table_in w.now.table.now) (λ u. u < w.now.count) flags.old result flags.new }
{
    let mut more = false;
    for t in (0..w.count).rev() {
        if flags[t] == 0 && found(w.table, flags, describe(w.index[t])) {
            flags[t] = 1;
            more = true;
        }
    }
    more
}

// The lowest record that has no finite value.
pub(crate) fn lowest(w: &Indexed) -> Option<usize>
    ensures { let n = w.now.count in result ≡ if_below n (lowest (infinite (table_in w.now.table.now) n) n) }
{
    let mut flags = [0u8; 128];
    loop {
        let more = round(w, &mut flags);
        let lowest = (0..w.count).find(|&t| flags[t] == 0);
        if lowest.is_none() {
            return None;
        }
        if !more {
            return lowest;
        }
    }
}
