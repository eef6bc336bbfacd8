// Explicit tags (X.690, 8.14), of which a record has at most four: they are opened from the outermost in, and closed from the innermost out.
ghost use Rattle.std.specs.Prelude.{◌≡◌, ℕ, ◌<◌, ◌≤◌, length, take, drop};
ghost use Rattle.octets.specs.Answer.{got};
ghost use Rattle.records.specs.Descriptors.{described};
ghost use Rattle.reader.specs.Answers.{told};
ghost use Rattle.reader.specs.Codes.{either};
ghost use Rattle.reader.specs.Records.{record_in, IsRecord};
ghost use Rattle.reader.specs.Wraps.{note_of, Headed, AwaitsTag, EntersTag, Opens, Around, closing};

use crate::answer::Judged;
use ber::{ending, identifier, length};
use checker::passed::Passed;
use records::descriptor::{describe, tag_code, tag_count};
use x690::{ReadingCause, Unread};

// The item under all tags: where it begins, where its identifier ends, and where what it stands in ends.
#[derive(Clone, Copy, Debug, PartialEq, Eq)]
pub struct Inner {
    pub at: usize,
    pub from: usize,
    pub end: usize,
}

// The note of a tag: twice the end of what it stands in, and 1 if 00 00 closes its contents.
fn note(end: usize, indefinite: bool) -> u16
    requires { end ≤ 8192 }
    ensures { result ≡ note_of end indefinite }
{
    let n = 2 * end;
    if indefinite {
        return (n + 1) as u16;
    }
    n as u16
}

// Where the identifier of the j-th tag of w ends, which m must begin with; a string's own may be constructed too. 0 behind the last tag, as of a CHOICE.
fn awaited(table: &Passed, w: u64, j: usize, m: &[u8]) -> Result<usize, ReadingCause>
    requires { IsRecord table.now.octets.now table.now.index.now w }
    ensures { AwaitsTag (record_in table.now.octets.now (described w)) j m.now result }
{
    let e = describe(w);
    if tag_count(e) <= j {
        return Ok(0);
    }
    let i = identifier::read(m)?;
    let awaited = tag_code(table.octets, e, j);
    if i.code == awaited {
        return Ok(i.end);
    }
    if i.code == awaited + 32 {
        if e.explicit as usize == j {
            if e.kind.is_string() {
                return Ok(i.end);
            }
        }
    }
    Err(ReadingCause::NotAwaited)
}

// Whether an item follows in the contents m of a tag, which 00 00 closes if `indefinite`; then the j-th tag of w is awaited.
fn enter(
    table: &Passed,
    w: u64,
    j: usize,
    m: &[u8],
    indefinite: bool,
) -> Result<usize, ReadingCause>
    requires { IsRecord table.now.octets.now table.now.index.now w }
    ensures { EntersTag (record_in table.now.octets.now (described w)) j m.now indefinite result }
{
    match ending::read(m, 0, indefinite)? {
        None => awaited(table, w, j, m),
        Some(_) => Err(ReadingCause::NotAwaited),
    }
}

// Opens the explicit tags of w; the outermost begins at `at`, and its identifier ends at `from`.
pub fn open(
    table: &Passed,
    w: u64,
    m: &[u8],
    at: usize,
    from: usize,
    notes: &mut [u16; 4],
) -> Result<Inner, Unread>
    requires { IsRecord table.now.octets.now table.now.index.now w
        × (0 < (described w).explicit)
        × Headed m.now at from (either (record_in table.now.octets.now (described w))) (described w).code
        × (length m.now ≤ 8192) }
    ensures { Opens table.now.octets.now (record_in table.now.octets.now (described w)) m.now at (take (described w).explicit notes.new) result }
{
    let e = describe(w);
    let count = e.explicit as usize;
    let mut at = at;
    let mut end = m.len();
    let mut from = from;
    for j in 0..count {
        let around = &m[..end];
        let x = match length::read(around, from) {
            Ok(x) => x,
            Err(cause) => {
                return Err(Unread {
                    cause,
                    left: m.len() - at,
                });
            }
        };
        notes[j] = note(end, x.indefinite);
        at = x.start;
        end = x.end;
        let inside = &m[at..end];
        match enter(table, w, j + 1, inside, x.indefinite) {
            Ok(next) => from = at + next,
            Err(cause) => {
                return Err(Unread {
                    cause,
                    left: m.len() - at,
                });
            }
        }
    }
    Ok(Inner { at, from, end })
}

// Closes the tags behind the item under them, which ends at `at`, and what that stands in at `end`; its value has `size` octets.
pub fn close(
    m: &[u8],
    notes: &[u16; 4],
    count: usize,
    at: usize,
    end: usize,
    size: usize,
) -> Result<Judged, Unread>
    requires { (count ≤ 4)
        × (at ≤ end)
        × (length m.now ≤ 8192)
        × (size < 16386)
        × Around (length m.now) (take count notes.now) end }
    ensures { result ≡ told m.now (λ (n : ℕ). n) (closing m.now (take count notes.now) end (got size (drop at (take end m.now)))) }
{
    let mut at = at;
    let mut end = end;
    for j in (0..count).rev() {
        let n = notes[j];
        let around = &m[..end];
        let left = m.len() - at;
        match ending::read(around, at, n % 2 == 1) {
            Ok(Some(x)) => {
                at = x;
                end = n as usize / 2;
            }
            Ok(None) => {
                return Err(Unread {
                    cause: ReadingCause::Trailing,
                    left,
                });
            }
            Err(cause) => return Err(Unread { cause, left }),
        }
    }
    Ok(Judged { end: at, size })
}
