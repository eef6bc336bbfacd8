// 1: where shaped records end, if they do (FORMATS, "Tables" and "Limits").
ghost use Rattle.std.specs.Prelude.{◌≡◌, ◌<◌, leb};
ghost use Rattle.octets.specs.Lists.{all};
ghost use Rattle.octets.specs.Numbers.{unless_zero};
ghost use Rattle.kinds.specs.Kinds.{octet_of};
ghost use Rattle.table.specs.Octets.{rising};
ghost use Rattle.table.specs.Reading.{every_at, numbers_at, counted_end, enumerated_end, members_end, reference_end, own_end, record_end};

use kinds::Kind;
use octets::{octet, two};

// Whether each of n octets is at most `most`; the first is at p, each `step` after the one before.
fn each_at_most(table: &[u8], most: usize, step: usize, p: usize, n: usize) -> bool
    requires { (p < 100000) × (step < 4) × (n < 256) }
    ensures { result ≡ all (λ x. leb x most) (every_at step table.now p n) }
{
    (0..n).all(|k| octet(table, p + step * k) <= most)
}

// Whether the n numbers of two octets from p on rise strictly.
fn rises(table: &[u8], p: usize, n: usize) -> bool
    requires { (p < 100000) × (n < 256) }
    ensures { result ≡ rising 0 (numbers_at table.now p n) }
{
    let mut low: usize = 0;
    for k in 0..n {
        let x = two(table, p + 2 * k);
        if x < low {
            return false;
        }
        low = x + 1;
    }
    true
}

// The end of a count at p and as many items of `size` octets, if there are from `least` to `most` of them.
#[tactic(auto, using(octets::proofs::Search::tests), unfolding(table::specs::Reading::counted_end))]
fn counted_end(table: &[u8], size: usize, least: usize, most: usize, p: usize) -> Option<usize>
    requires { (p < 90000) × (size < 3) }
    ensures { result ≡ unless_zero (counted_end size least most table.now p) }
{
    if table.len() <= p {
        return None;
    }
    let n = octet(table, p);
    if n < least {
        return None;
    }
    if most < n {
        return None;
    }
    let end = p + 1 + size * n;
    if table.len() < end {
        return None;
    }
    Some(end)
}

#[tactic(auto, using(octets::proofs::Search::tests), unfolding(table::specs::Reading::enumerated_end))]
fn enumerated_end(table: &[u8], p: usize) -> Option<usize>
    requires { p < 90000 }
    ensures { result ≡ unless_zero (enumerated_end table.now p) }
{
    let end = counted_end(table, 2, 1, 32, p)?;
    if !rises(table, p + 1, octet(table, p)) {
        return None;
    }
    Some(end)
}

#[tactic(auto, using(octets::proofs::Search::tests), unfolding(table::specs::Reading::members_end))]
fn members_end(table: &[u8], p: usize) -> Option<usize>
    requires { p < 90000 }
    ensures { result ≡ unless_zero (members_end table.now p) }
{
    let end = counted_end(table, 2, 0, 16, p)?;
    if !each_at_most(table, 1, 2, p + 2, octet(table, p)) {
        return None;
    }
    Some(end)
}

fn reference_end(table: &[u8], p: usize) -> Option<usize>
    requires { p < 90000 }
    ensures { result ≡ unless_zero (reference_end table.now p) }
{
    if table.len() <= p {
        return None;
    }
    Some(p + 1)
}

// The end of the own part at p of a kind. That of the other simple kinds has no octets, and ends
// at p; no record is of a message's kind.
#[tactic(auto, using(octets::proofs::Search::tests), unfolding(table::specs::Reading::own_end))]
fn own_end(table: &[u8], kind: Kind, p: usize) -> Option<usize>
    requires { (0 < p) × (p < 90000) }
    ensures { result ≡ unless_zero (own_end table.now (octet_of kind) p) }
{
    match kind {
        Kind::Enumerated => enumerated_end(table, p),
        Kind::Sequence | Kind::Set => members_end(table, p),
        Kind::SequenceOf | Kind::SetOf => reference_end(table, p),
        Kind::Choice => counted_end(table, 1, 1, 16, p),
        Kind::Message => None,
        _ => Some(p),
    }
}

// The end of the record at o.
#[tactic(auto, using(octets::proofs::Search::tests), unfolding(table::specs::Reading::record_end))]
pub(crate) fn record_end(table: &[u8], o: usize) -> Option<usize>
    requires { o < 65536 }
    ensures { result ≡ unless_zero (record_end table.now o) }
{
    if table.len() < o + 4 {
        return None;
    }
    if octet(table, o) != 0x54 {
        return None;
    }
    if octet(table, o + 1) != 0x59 {
        return None;
    }
    let tags = octet(table, o + 3);
    if 4 < tags {
        return None;
    }
    let own = o + 4 + 3 * tags;
    if table.len() < own {
        return None;
    }
    if !each_at_most(table, 3, 3, o + 4, tags) {
        return None;
    }
    own_end(table, Kind::of(table[o + 2])?, own)
}
