// The number and the place of every refusal (FORMATS, "Refusals").
#![tactic(auto)]

ghost use Rattle.std.specs.Prelude.{◌≡◌, ◌<◌};
ghost use Rattle.coding.specs.Outcome.{table_report, value_report, message_report, number_of, place_of};

use coding::{MessageCause, Refusal, Report, TableCause, ValueCause};

fn report(number: u64, place: usize) -> Report
    ensures { (result.number ≡ number) × (result.place ≡ place) }
{
    Report { number, place }
}

// The number and the place of each cause, by its stage.
fn table_report(cause: TableCause) -> Report
    ensures { (result.number ≡ (table_report cause).number)
        × (result.place ≡ (table_report cause).place)
        × (result.number < 256) }
{
    match cause {
        TableCause::TableShape(p) => report(1, p),
        TableCause::NoRecord(p) => report(2, p),
        TableCause::WrongTag(p) => report(3, p),
        TableCause::ChoiceLoop(p) => report(4, p),
        TableCause::SharedTag(p) => report(5, p),
        TableCause::NoValue(p) => report(6, p),
        TableCause::Unknown => report(7, 0),
    }
}

fn value_report(cause: ValueCause) -> Report
    ensures { (result.number ≡ (value_report cause).number)
        × (result.place ≡ (value_report cause).place)
        × (result.number < 256) }
{
    match cause {
        ValueCause::ValueShape(p) => report(11, p),
        ValueCause::IllTyped(p) => report(12, p),
        ValueCause::ValueLevel(p) => report(13, p),
        ValueCause::MessageRoom => report(14, 0),
    }
}

fn message_report(cause: MessageCause) -> Report
    ensures { (result.number ≡ (message_report cause).number)
        × (result.place ≡ (message_report cause).place)
        × (result.number < 256) }
{
    match cause {
        MessageCause::MessageLength(p) => report(21, p),
        MessageCause::Cut(p) => report(22, p),
        MessageCause::Forbidden(p) => report(23, p),
        MessageCause::NotAwaited(p) => report(24, p),
        MessageCause::Contents(p) => report(25, p),
        MessageCause::Trailing(p) => report(26, p),
        MessageCause::ValueRoom => report(27, 0),
        MessageCause::MessageLevel(p) => report(28, p),
        MessageCause::LengthField(p) => report(29, p),
    }
}

// The number and the place of a refusal.
pub fn report_of(r: Refusal) -> Report
    ensures { (result.number ≡ number_of r)
        × (result.place ≡ place_of r)
        × (result.number < 256) }
{
    match r {
        Refusal::Table(cause) => table_report(cause),
        Refusal::Value(cause) => value_report(cause),
        Refusal::Message(cause) => message_report(cause),
    }
}
