// The check of a type table's octets, and the index of its records (FORMATS, "Tables", "Order of refusals").
#![tactic(auto)]

mod finite;
mod first_tags;
mod index;
pub mod passed;
mod references;
mod shape;
mod tags;

ghost use Rattle.std.specs.Prelude.{◌≡◌};
ghost use Rattle.table.specs.Verdict.{judge_choices, judge, verdict};
ghost use Rattle.table.specs.Walk.{Named};
ghost use Rattle.table.specs.Reading.{table_in};
ghost use Rattle.checker.specs.Index.{unless_found, count_after, index_after, described_after};

use first_tags::Known;
use index::Indexed;
use table::{CheckCause, Flaw};

// Octets of a table.
const LONGEST_TABLE: usize = 8192;

// The verdict on a table, and how many records it has.
#[derive(Clone, Copy, Debug, PartialEq, Eq)]
pub struct Counted {
    pub verdict: Result<(), Flaw>,
    pub count: usize,
}

// The verdict by one cause, and the record that was found to have it, if one was.
fn unless_found(cause: CheckCause, found: Option<usize>) -> Result<(), Flaw>
    ensures { result ≡ unless_found cause found }
{
    match found {
        Some(place) => Err(Flaw { cause, place }),
        None => Ok(()),
    }
}

// The verdict by the rules 4 to 6, on records that keep the rules 1 to 3 (FORMATS, "Order of refusals").
#[tactic(auto, unfolding(table::specs::Verdict::judge_choices))]
fn judge_choices(w: &Indexed) -> Result<(), Flaw>
    requires { Named (table_in w.now.table.now) w.now.count }
    ensures { result ≡ judge_choices (table_in w.now.table.now) w.now.count }
{
    let nodes = first_tags::stand_ins(w);
    let known = Known {
        table: w.table,
        index: w.index,
        nodes: &nodes,
        count: w.count,
    };
    let circular = first_tags::lowest_circular(&known);
    unless_found(CheckCause::ChoiceLoop, circular)?;
    let sharing = first_tags::lowest_sharing(&known);
    unless_found(CheckCause::SharedTag, sharing)?;
    unless_found(CheckCause::NoValue, finite::lowest(w))
}

// The verdict by the rules 2 to 6.
#[tactic(auto, unfolding(table::specs::Verdict::judge_choices, table::specs::Verdict::judge))]
fn judge_records(w: &Indexed) -> Result<(), Flaw>
    ensures { result ≡ judge (table_in w.now.table.now) w.now.count }
{
    let dangling = references::lowest(w);
    unless_found(CheckCause::NoRecord, dangling)?;
    let mistagged = tags::lowest(w);
    unless_found(CheckCause::WrongTag, mistagged)?;
    judge_choices(w)
}

// The check, and an index of what its records are described by. Of a table that is refused the records before the refusal of its shape are
// described too. Zeros follow. Of too many octets no record is counted, and the index stays as it was.
fn check_described(table: &[u8], index: &mut [u64; 128]) -> Counted
    ensures { let b = table.now in
        (result.verdict ≡ verdict b)
        × (result.count ≡ count_after b)
        × (index.new ≡ described_after b index.old) }
{
    if LONGEST_TABLE < table.len() {
        return Counted {
            verdict: Err(index::misshapen(0)),
            count: 0,
        };
    }
    match index::fill(table, index) {
        Ok(count) => {
            index::renumber(index, count);
            let w = Indexed {
                table,
                index,
                count,
            };
            Counted {
                verdict: judge_records(&w),
                count,
            }
        }
        Err(flaw) => {
            index::renumber(index, flaw.place);
            Counted {
                verdict: Err(flaw),
                count: flaw.place,
            }
        }
    }
}

// The check, and the index of a table's records as their entries. Otherwise it is as after `check_described`.
pub fn check_into(table: &[u8], index: &mut [u64; 128]) -> Counted
    ensures { let b = table.now in
        (result.verdict ≡ verdict b)
        × (result.count ≡ count_after b)
        × (index.new ≡ index_after b index.old) }
{
    let checked = check_described(table, index);
    index::restore(index, checked.count);
    checked
}

// The check of a table.
pub fn check(table: &[u8]) -> Result<(), Flaw>
    ensures { result ≡ verdict table.now }
{
    let mut index = [0u64; 128];
    let c = check_described(table, &mut index);
    c.verdict
}
