// X.690 with no table: definitions and laws alone (specs, proofs). The code that is proved to follow them is in `ber` and `simple`.
#![tactic(auto)]

// Why the reading of a message refuses, 22 to 26, 28 and 29 (FORMATS, "Refusals"). The place is made of the octets that are left, where the
// message is known.
#[derive(Clone, Copy, Debug, PartialEq, Eq)]
pub enum ReadingCause {
    Cut,
    Forbidden,
    NotAwaited,
    Contents,
    Trailing,
    MessageLevel,
    LengthField,
}

// Why reading refuses, and how many octets are left from the place of the refusal to the end of those that were given.
#[derive(Clone, Copy, Debug, PartialEq, Eq)]
pub struct Unread {
    pub cause: ReadingCause,
    pub left: usize,
}
