// 3: a tag that is missing, or a UNIVERSAL tag out of place (FORMATS, "Tables" and "Refusals").
ghost use Rattle.std.specs.Prelude.{◌≡◌, not, ◌&&◌, ◌<◌, ◌+◌, eqb, get_or};
ghost use Rattle.octets.specs.Numbers.{two, if_below};
ghost use Rattle.octets.specs.Lists.{any, lowest};
ghost use Rattle.table.specs.Syntax.{Record};
ghost use Rattle.table.specs.Reading.{every_at, table_in};
ghost use Rattle.table.specs.Fields.{universal_of};
ghost use Rattle.table.specs.Decide.{wrong_tags, mistagged};
ghost use Rattle.kinds.specs.Kinds.{octet_of};
ghost use Rattle.records.specs.Entries.{tag_place};
ghost use Rattle.records.specs.Descriptors.{entry_of, Describes};

use crate::index::Indexed;
use kinds::Kind;
use octets::{octet, two};
use records::descriptor::{Descriptor, describe, tag_place};
use records::entry::LACKING;

// Whether one of the explicit tags is UNIVERSAL.
fn explicit_universal(table: &[u8], e: Descriptor) -> bool
    ensures { result ≡ any (λ x. eqb x 0) (every_at 3 table.now (tag_place (entry_of e) 0) e.explicit) }
{
    let p = tag_place(e, 0);
    (0..e.explicit as usize).any(|k| octet(table, p + 3 * k) == 0)
}

// Whether the tag at p is a UNIVERSAL one that its kind does not bear.
fn wrong_own(table: &[u8], kind: Kind, p: usize) -> bool
    requires { p < 65536 }
    ensures { result ≡ (eqb (get_or table.now p 0) 0 && not (eqb (two table.now (p + 1)) (universal_of (octet_of kind)))) }
{
    if octet(table, p) != 0 {
        return false;
    }
    two(table, p + 1) != kind.universal()
}

// Whether the tags of a record break the rule.
fn wrong(table: &[u8], e: Descriptor) -> bool
    ensures { (x : Record) → Describes table.now e x → result ≡ wrong_tags x.body x.tags }
{
    if e.explicit == LACKING {
        return true;
    }
    if explicit_universal(table, e) {
        return true;
    }
    if e.kind == Kind::Choice {
        return false;
    }
    wrong_own(table, e.kind, tag_place(e, e.explicit as usize))
}

// The lowest record with such tags.
pub(crate) fn lowest(w: &Indexed) -> Option<usize>
    ensures { let n = w.now.count in result ≡ if_below n (lowest (mistagged (table_in w.now.table.now)) n) }
{
    (0..w.count).find(|&t| wrong(w.table, describe(w.index[t])))
}
