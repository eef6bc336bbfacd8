// A node alone in its octets, with no node below it (FORMATS, "Times").
ghost use Rattle.std.specs.Prelude.{◌≡◌, not, ◌&&◌, ◌<◌, ◌≤◌, ◌+◌, eqb, length, get_or};
ghost use Rattle.octets.specs.Lists.{any, all};
ghost use Rattle.octets.specs.Numbers.{two};
ghost use Rattle.table.specs.Reading.{every_at};
ghost use Rattle.coding.specs.Judging.{flags};
ghost use Rattle.coding.specs.Reckoning.{is_lone};
ghost use Rattle.writer.specs.Nodes.{members_end, fixed_end};

use crate::{contents, node};
use coding::LONGEST_VALUE;
use kinds::Kind;
use octets::octet;

// Whether n octets from p on are 0. They are added up, with no way out of the loop, so that many are taken at a time.
fn are_zero(v: &[u8], p: usize, n: usize) -> bool
    requires { (n < 256)
        × (p + n ≤ length v.now) }
    ensures { result ≡ all (λ x. eqb x 0) (every_at 1 v.now p n) }
{
    let end = p + n;
    let mut sum = 0u16;
    for x in &v[p..end] {
        sum += u16::from(*x);
    }
    sum == 0
}

// Whether the own part at p of members ends the octets, and none is present.
#[tactic(auto, using(crate::proofs::Alone::members_behind, crate::proofs::Alone::members_zero))]
fn no_member(v: &[u8], p: usize) -> bool
    requires { (p < 20000)
        × (0 < length v.now) }
    ensures { let o = v.now in
        result ≡ (eqb (members_end o p) (length o) && not (any (λ b. b) (flags (every_at 1 o (p + 1) (get_or o p 0))))) }
{
    let n = octet(v, p);
    let start = p + 1;
    if v.len() != start + n {
        return false;
    }
    are_zero(v, start, n)
}

// Whether the own part at p of a list ends the octets, and it has no element.
#[tactic(auto, using(crate::proofs::Alone::elements_behind, crate::proofs::Alone::elements_none))]
fn no_element(v: &[u8], p: usize) -> bool
    requires { (p < 20000)
        × (0 < length v.now) }
    ensures { let o = v.now in result ≡ (eqb (fixed_end o (p + 2)) (length o) && eqb (two o p) 0) }
{
    if v.len() != p + 2 {
        return false;
    }
    contents::two(v, p) == 0
}

// Whether octets are those of one shaped node alone, without children, and not over_long. A CHOICE always has a child.
pub fn is_lone(v: &[u8]) -> bool
    ensures { result ≡ is_lone v.now }
{
    if LONGEST_VALUE < v.len() {
        return false;
    }
    if !node::marked(v, 0) {
        return false;
    }
    let Some(kind) = Kind::of(v[2]) else {
        return false;
    };
    if !kind.constructed() {
        let Some(leaf) = contents::measure(kind, v, 3) else {
            return false;
        };
        return leaf.end == v.len();
    }
    match kind {
        Kind::Sequence | Kind::Set => no_member(v, 3),
        Kind::SequenceOf | Kind::SetOf => no_element(v, 3),
        _ => false,
    }
}
