// The index of a table: an entry for each of its records (FORMATS, "Tables").
ghost use Rattle.std.specs.Prelude.{◌≤◌, ◌<◌, length, ◌≡◌, eqb};
ghost use Rattle.octets.specs.Tests.{if};
ghost use Rattle.octets.specs.Numbers.{Octets};
ghost use Rattle.table.specs.declared.CheckCause.TheVariants.{TableShape};
ghost use Rattle.table.specs.Reading.{record_end};
ghost use Rattle.records.specs.Entries.{packed, outermost_in, all_but_last};
ghost use Rattle.records.specs.Descriptors.{Listed};
ghost use Rattle.checker.specs.Index.{number_at, scanned, index_in, renumbered, restored};

use crate::shape::record_end;
use ber::identifier::code_of;
use kinds::{Kind, constructed};
use octets::{octet, two};
use records::descriptor::{entry_number, number};
use records::entry::{LACKING, UNTAGGED};
use table::{CheckCause, Flaw};

// A table and its index, which has the descriptors of all its records, as many as `count`.
#[derive(Clone, Copy)]
pub(crate) struct Indexed<'a> {
    pub table: &'a [u8],
    pub index: &'a [u64; 128],
    pub count: usize,
    ghost octets: { Octets table.now },
    ghost filled: { Listed table.now index.now count },
}

// The code of the outermost identifier of a record with as many tags, the first at p, simple or not.
#[tactic(auto, unfolding(records::specs::Entries::outermost_in))]
fn outermost(table: &[u8], simple: bool, tags: u8, p: usize) -> u32
    requires { p < 65536 }
    ensures { result ≡ outermost_in table.now p tags simple }
{
    if tags == 0 {
        return UNTAGGED;
    }
    let class = octet(table, p) as u8;
    let n = two(table, p + 1) as u16;
    if 1 < tags {
        return code_of(class, true, n);
    }
    code_of(class, !simple, n)
}

// How many of `tags` tags of a kind are explicit.
fn explicit(kind: u8, tags: u8) -> u8
    ensures { result ≡ if (eqb kind 50) tags (λ _. all_but_last tags) }
{
    if kind == Kind::Choice.octet() {
        return tags;
    }
    if tags == 0 {
        return LACKING;
    }
    tags - 1
}

// An entry as one number.
#[tactic(auto, unfolding(records::specs::Entries::packed))]
fn pack(code: u32, own: u16, kind: u8, explicit: u8, simple: bool) -> u64
    requires { explicit < 128 }
    ensures { result ≡ packed (record { code = code; own = own; kind = kind; explicit = explicit; simple = simple }) }
{
    let high = if simple {
        explicit as u64 + 128
    } else {
        explicit as u64
    };
    ((high * 256 + kind as u64) * 65536 + own as u64) * 4294967296 + code as u64
}

// The entry of the record at o, which is shaped.
#[tactic(auto, using(records::proofs::Entries::heads, records::proofs::Entries::explicit_small), unfolding(records::specs::Entries::entry_at))]
fn entry(table: &[u8], o: usize) -> u64
    requires { (length table.now ≤ 8192) × (0 < record_end table.now o) }
    ensures { result ≡ number_at table.now o }
{
    let kind = table[o + 2];
    let tags = table[o + 3];
    let p = o + 4;
    let own = p + 3 * tags as usize;
    let simple = !constructed(kind as usize);
    let code = outermost(table, simple, tags, p);
    pack(code, own as u16, kind, explicit(kind, tags), simple)
}

// What is wrong with a table whose record t is not shaped, or where octets follow 128 records.
pub(crate) fn misshapen(t: usize) -> Flaw
    ensures { result ≡ record { cause = TableShape; place = t } }
{
    Flaw {
        cause: CheckCause::TableShape,
        place: t,
    }
}

// Fills the index, from record to record, and says how many there are if nothing is left after them. It is stored whole first: only then
// is it known how many numbers it has.
pub(crate) fn fill(table: &[u8], index: &mut [u64; 128]) -> Result<usize, Flaw>
    requires { length table.now ≤ 8192 }
    ensures { (result ≡ scanned table.now) × (index.new ≡ index_in table.now) }
{
    *index = [0u64; 128];
    let mut at: usize = 0;
    for count in 0..128 {
        let Some(end) = record_end(table, at) else {
            return Err(misshapen(count));
        };
        index[count] = entry(table, at);
        if end == table.len() {
            return Ok(count + 1);
        }
        at = end;
    }
    Err(misshapen(128))
}

// The first n numbers of an index become those of descriptors.
pub(crate) fn renumber(index: &mut [u64; 128], n: usize)
    requires { n ≤ 128 }
    ensures { index.new ≡ renumbered n index.old }
{
    for t in 0..n {
        index[t] = number(index[t]);
    }
}

// And back.
pub(crate) fn restore(index: &mut [u64; 128], n: usize)
    requires { n ≤ 128 }
    ensures { index.new ≡ restored n index.old }
{
    for t in 0..n {
        index[t] = entry_number(index[t]);
    }
}
