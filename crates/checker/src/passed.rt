// A table that passed the check, as reading and writing go by it (FORMATS, "Tables").
ghost use Rattle.std.specs.Prelude.{◌≡◌, Err, IfOk, IfErr};
ghost use Rattle.octets.specs.Numbers.{Octets};
ghost use Rattle.table.specs.Reading.{count_in};
ghost use Rattle.table.specs.Verdict.{verdict, no_flaw};
ghost use Rattle.records.specs.Descriptors.{Listed};

use crate::check_described;
use table::Flaw;

// Room for the index of a table's records. It is a struct, and the first parameter of `check`, since a clause on what it ends as, once what
// borrows it is gone, is proved of such a parameter alone.
#[derive(Clone, Copy, Debug, PartialEq, Eq)]
pub struct Index {
    pub entries: [u64; 128],
}

// Its octets, its index, which has a descriptor's number for each of its records, and how many there are.
#[derive(Clone, Copy)]
pub struct Passed<'a> {
    pub octets: &'a [u8],
    pub index: &'a [u64; 128],
    pub count: usize,
    ghost small: { Octets octets.now },
    ghost passed: { verdict octets.now ≡ no_flaw },
    ghost counted: { count ≡ count_in octets.now },
    ghost listed: { Listed octets.now index.now (count_in octets.now) },
}

impl<'a> Passed<'a> {
    ghost use Rattle.std.specs.Borrow.{sem};
    ghost use Rattle.checker.specs.Index.{described_after};
    ghost use Rattle.checker.specs.Lent.{EndsAs};

    // Checks a table, and fills the index that is lent. Passed or refused, it has the descriptors of the records that the check counts.
    pub fn check(index: &'a mut Index, table: &'a [u8]) -> Result<Passed<'a>, Flaw>
        ensures passes { IfOk result (λ x.
            (verdict table.now ≡ no_flaw)
            × (x.octets.now ≡ table.now)
            × (x.index.now ≡ described_after table.now index.old.entries)) }
        ensures refused { IfErr result (λ f. verdict table.now ≡ Err f) }
        ensures* left { sem 𝓛 (EndsAs index.entry (described_after table.now index.old.entries)) }
    {
        let checked = check_described(table, &mut index.entries);
        match checked.verdict {
            Ok(()) => Ok(Passed {
                octets: table,
                index: &index.entries,
                count: checked.count,
            }),
            Err(f) => Err(f),
        }
    }
}
