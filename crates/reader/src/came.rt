// The members of a SEQUENCE or a SET that came, and those that did not. For each member of a SET 0 is noted, or another number if it came.
ghost use Rattle.std.specs.Prelude.{◌≡◌, true, not, ◌||◌, eqb};
ghost use Rattle.octets.specs.Lists.{any as Lists·any};
ghost use Rattle.kinds.specs.Kinds.{octet_of};
ghost use Rattle.records.specs.Descriptors.{described};
ghost use Rattle.reader.specs.Items.{left};
ghost use Rattle.reader.specs.Sought.{held, Sound};

use checker::passed::Passed;
use records::descriptor::{describe, parts};
use records::entry::optional;

// Whether one of the members from the i-th on that have not come is mandatory, or there is one at all if `any`.
pub fn lacks(table: &Passed, w: u64, i: usize, came: &[u16; 16], any: bool) -> bool
    requires { Sound table.now.octets.now table.now.index.now w came.now × ((eqb (octet_of (described w).kind) 16 || eqb (octet_of (described w).kind) 17) ≡ true) }
    ensures { result ≡ Lists·any (λ x. any || not x.1.optional) (left (held table.now.octets.now w) i came.now) }
{
    let s = parts(table.octets, describe(w));
    for k in i..s.count {
        let p = s.first + s.step * k;
        if came[k] == 0 {
            if any {
                return true;
            }
            if !optional(table.octets, p) {
                return true;
            }
        }
    }
    false
}
