// What the judge of a message answers of one that it does not refuse (FORMATS, "Refusals").
ghost use Rattle.std.specs.Prelude.{◌≡◌, ◌<◌, ◌+◌};
ghost use Rattle.reader.specs.Answers.{cap};

// Where what is judged ends, and how many octets its value has, 16,385 for all above 16,384.
#[derive(Clone, Copy, Debug, PartialEq, Eq)]
pub struct Judged {
    pub end: usize,
    pub size: usize,
}

// Stands for every size above that of the longest value.
const OVER: usize = 16385;

// The sum of two sizes; 16,385 if it is over 16,384.
pub fn grow(a: usize, b: usize) -> usize
    requires { (a < 65536) × (b < 65536) }
    ensures { result ≡ cap (a + b) }
{
    OVER.min(a + b)
}
