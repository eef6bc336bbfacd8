// The members of a SET that was accepted, where each begins: they come in any order, and are placed in the table's (X.690, 8.11).
// For each member 0 is noted, or one more than where it begins.
ghost use Rattle.std.specs.Prelude.{◌≡◌, List, ◌≤◌, length, unwrap_or, ◌<◌, IfSome};
ghost use Rattle.table.specs.Syntax.{Member, Set};
ghost use Rattle.table.specs.Reading.{table_in};
ghost use Rattle.kinds.specs.Kinds.{octet_of};
ghost use Rattle.records.specs.Descriptors.{described};
ghost use Rattle.reader.specs.Items.{inside, blank};
ghost use Rattle.reader.specs.Records.{Known};
ghost use Rattle.reader.specs.Sought.{held};
ghost use Rattle.reader.specs.Placing.{Spotted, end_at};
ghost use Rattle.reader.specs.Placed.{Following};

use crate::search::search;
use ber::{ending, item};
use checker::passed::Passed;

// Behind contents that are over at a place; 00 00 closes them if `indefinite`.
pub fn behind(at: usize, indefinite: bool) -> usize
    requires { at ≤ 8192 }
    ensures { result ≡ end_at indefinite at }
{
    if indefinite {
        return at + 2;
    }
    at
}

// The first member from the j-th on, of n, that came.
pub fn following(began: &[u16; 16], j: usize, n: usize) -> Option<usize>
    requires { (j ≤ n) × (n ≤ 16) }
    ensures { Following began.now j n (unwrap_or result n) × IfSome result (λ k. k < n) }
{
    (j..n).find(|&k| began[k] != 0)
}

// Where each member begins, and where the contents end, of a SET that was accepted; 00 00 closes them if `indefinite`.
pub fn locate(
    table: &Passed,
    w: u64,
    m: &[u8],
    indefinite: bool,
    began: &mut [u16; 16],
    way: &mut [u16; 128],
) -> usize
    requires { Known table.now.octets.now table.now.index.now w
        × (octet_of (described w).kind ≡ 17)
        × (length m.now ≤ 8192)
        × (began.old ≡ blank) }
    ensures { ((ms : List Member) → held table.now.octets.now w ≡ inside (Set ms)
        → Spotted (table_in table.now.octets.now) ms indefinite m.now began.new result) }
{
    let mut at: usize = 0;
    while !ending::is_over(m, at, indefinite) {
        let rest = &m[at..];
        let came = *began;
        let Ok(x) = search(table, w, rest, 0, &came, way) else {
            return at;
        };
        let place = x.place;
        began[place] = (at + 1) as u16;
        at += item::end(rest, x.from);
    }
    behind(at, indefinite)
}
