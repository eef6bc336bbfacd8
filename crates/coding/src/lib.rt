// What check, write, read and the operations on times refuse (FORMATS, "Refusals", "Times" and "Centuries"), and the limits of a value and of a message ("Limits").
#![tactic(auto)]

ghost use Rattle.std.specs.Prelude.{◌≡◌};
ghost use Rattle.coding.specs.Outcome.{table_cause, value_cause, message_cause};
ghost use Rattle.coding.specs.declared.Refusal.TheVariants.{Table, Value, Message};

use table::{CheckCause, Flaw};
use x690::ReadingCause;

// Octets of a value, octets of a message, levels.
pub const LONGEST_VALUE: usize = 16384;

pub const LONGEST_MESSAGE: usize = 8192;

pub const LEVELS: usize = 24;

// Why the judging of a value refuses, 11 to 13.
#[derive(Clone, Copy, Debug, PartialEq, Eq)]
pub enum JudgingCause {
    ValueShape,
    IllTyped,
    ValueLevel,
}

// Why a value is refused, and the octet of it that has the cause.
#[derive(Clone, Copy, Debug, PartialEq, Eq)]
pub struct Unfit {
    pub cause: JudgingCause,
    pub place: usize,
}

// Why a message is refused, and the octet of it that has the cause.
#[derive(Clone, Copy, Debug, PartialEq, Eq)]
pub struct Misread {
    pub cause: ReadingCause,
    pub place: usize,
}

// The causes of each stage, with their places. One without a place is always at 0.

// 1 to 7. Unknown is a type or a link version that there is not.
#[derive(Clone, Copy, Debug, PartialEq, Eq)]
pub enum TableCause {
    TableShape(usize),
    NoRecord(usize),
    WrongTag(usize),
    ChoiceLoop(usize),
    SharedTag(usize),
    NoValue(usize),
    Unknown,
}

// 11 to 14.
#[derive(Clone, Copy, Debug, PartialEq, Eq)]
pub enum ValueCause {
    ValueShape(usize),
    IllTyped(usize),
    ValueLevel(usize),
    MessageRoom,
}

// 21 to 29.
#[derive(Clone, Copy, Debug, PartialEq, Eq)]
pub enum MessageCause {
    MessageLength(usize),
    Cut(usize),
    Forbidden(usize),
    NotAwaited(usize),
    Contents(usize),
    Trailing(usize),
    ValueRoom,
    MessageLevel(usize),
    LengthField(usize),
}

// The stage at which something is refused, and within it the cause. All that the engine does answers with a Result of this error.
#[derive(Clone, Copy, Debug, PartialEq, Eq)]
pub enum Refusal {
    Table(TableCause),
    Value(ValueCause),
    Message(MessageCause),
}

// What the check of a table refuses, at a record.
impl From<Flaw> for Refusal {
    ghost from_gives = { λ x r. r ≡ Table (table_cause x.cause x.place) };

    fn from(x: Flaw) -> Refusal {
        let place = x.place;
        Refusal::Table(match x.cause {
            CheckCause::TableShape => TableCause::TableShape(place),
            CheckCause::NoRecord => TableCause::NoRecord(place),
            CheckCause::WrongTag => TableCause::WrongTag(place),
            CheckCause::ChoiceLoop => TableCause::ChoiceLoop(place),
            CheckCause::SharedTag => TableCause::SharedTag(place),
            CheckCause::NoValue => TableCause::NoValue(place),
        })
    }
}

// What the judging of a value refuses, at an octet of it.
impl From<Unfit> for Refusal {
    ghost from_gives = { λ x r. r ≡ Value (value_cause x.cause x.place) };

    fn from(x: Unfit) -> Refusal {
        let place = x.place;
        Refusal::Value(match x.cause {
            JudgingCause::ValueShape => ValueCause::ValueShape(place),
            JudgingCause::IllTyped => ValueCause::IllTyped(place),
            JudgingCause::ValueLevel => ValueCause::ValueLevel(place),
        })
    }
}

// What the reading of a message refuses, at an octet of it.
impl From<Misread> for Refusal {
    ghost from_gives = { λ x r. r ≡ Message (message_cause x.cause x.place) };

    fn from(x: Misread) -> Refusal {
        let place = x.place;
        Refusal::Message(match x.cause {
            ReadingCause::Cut => MessageCause::Cut(place),
            ReadingCause::Forbidden => MessageCause::Forbidden(place),
            ReadingCause::NotAwaited => MessageCause::NotAwaited(place),
            ReadingCause::Contents => MessageCause::Contents(place),
            ReadingCause::Trailing => MessageCause::Trailing(place),
            ReadingCause::MessageLevel => MessageCause::MessageLevel(place),
            ReadingCause::LengthField => MessageCause::LengthField(place),
        })
    }
}

// The number of a refusal, and its place.
#[derive(Clone, Copy, Debug, PartialEq, Eq)]
pub struct Report {
    pub number: u64,
    pub place: usize,
}
