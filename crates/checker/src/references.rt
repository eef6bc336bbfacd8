// 2: a record number that is not there (FORMATS, "Refusals").
ghost use Rattle.std.specs.Prelude.{◌≡◌, leb};
ghost use Rattle.octets.specs.Lists.{any, lowest};
ghost use Rattle.octets.specs.Numbers.{if_below};
ghost use Rattle.table.specs.Reading.{every_at, table_in};
ghost use Rattle.table.specs.Decide.{dangling};
ghost use Rattle.table.specs.Syntax.{Record, references};
ghost use Rattle.records.specs.Entries.{Near};
ghost use Rattle.records.specs.Descriptors.{Describes};

use crate::index::Indexed;
use octets::octet;
use records::descriptor::{Descriptor, describe, parts};
use records::entry::Span;

// Whether one of the parts has a number that is not below n.
fn dangling(table: &[u8], s: Span, n: usize) -> bool
    requires { Near s }
    ensures { result ≡ any (λ x. leb n x) (every_at s.step table.now s.first s.count) }
{
    (0..s.count).any(|k| n <= octet(table, s.first + s.step * k))
}

// Whether a record names such a number; a simple one names none.
fn names_beyond(table: &[u8], e: Descriptor, n: usize) -> bool
    ensures { (x : Record) → Describes table.now e x → result ≡ any (λ y. leb n y) (references x.body) }
{
    if e.simple {
        return false;
    }
    dangling(table, parts(table, e), n)
}

// The lowest record that has a record number that is not there.
pub(crate) fn lowest(w: &Indexed) -> Option<usize>
    ensures { let n = w.now.count in result ≡ if_below n (lowest (dangling (table_in w.now.table.now) n) n) }
{
    (0..w.count).find(|&t| names_beyond(w.table, describe(w.index[t]), w.count))
}
