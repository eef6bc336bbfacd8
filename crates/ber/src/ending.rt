// The end of contents: that of their octets, or 00 00 (X.690, 8.1.5).
ghost use Rattle.std.specs.Prelude.{◌≡◌, true, ◌&&◌, ◌||◌, eqb, length, get_or, drop};
ghost use Rattle.octets.specs.Answer.{none_left};
ghost use Rattle.ber.specs.Told.{end_of};

use x690::ReadingCause;

// Where contents are over that 00 00 closes, if they are at a place of m; none if an item follows.
#[tactic(auto, using(crate::proofs::Ends::ends_indefinite))]
fn indefinite_end(m: &[u8], at: usize) -> Result<Option<usize>, ReadingCause>
    ensures { result ≡ end_of true (length m.now) (drop at m.now) }
{
    if m.len() <= at {
        return Err(ReadingCause::Cut);
    }
    if m[at] != 0 {
        return Ok(None);
    }
    let second = at + 1;
    if m.len() <= second {
        return Err(ReadingCause::Cut);
    }
    if m[second] != 0 {
        return Err(ReadingCause::Forbidden);
    }
    Ok(Some(at + 2))
}

// Where what stands after contents begins, if they are over at a place of m; none if an item follows. 00 00 closes them if `indefinite`.
#[tactic(auto, using(crate::proofs::Ends::ends_definite))]
pub fn read(m: &[u8], at: usize, indefinite: bool) -> Result<Option<usize>, ReadingCause>
    ensures { result ≡ end_of indefinite (length m.now) (drop at m.now) }
{
    if indefinite {
        return indefinite_end(m, at);
    }
    if m.len() <= at {
        return Ok(Some(m.len()));
    }
    Ok(None)
}

// Whether contents that were read before are over at a place of m, to which they were read.
#[tactic(auto, using(crate::proofs::Ends::over))]
pub fn is_over(m: &[u8], at: usize, indefinite: bool) -> bool
    ensures { result ≡ (none_left (drop at m.now) || (indefinite && eqb (get_or m.now at 0) 0)) }
{
    if m.len() <= at {
        return true;
    }
    if !indefinite {
        return false;
    }
    m[at] == 0
}
