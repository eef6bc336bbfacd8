// Reads messages into values: a message is judged, which finds every refusal, and its value is then placed into a lent buffer.
#![tactic(auto)]

mod answer;
mod came;
mod contents;
mod judge;
mod node;
mod place;
mod search;
mod set;
mod tags;

ghost use Rattle.std.specs.Prelude.{◌≡◌};
ghost use Rattle.table.specs.Reading.{table_in};
ghost use Rattle.coding.specs.Calls.{read_outcome, whole_read};

use checker::passed::{Index, Passed};
use coding::{LONGEST_MESSAGE, LONGEST_VALUE, MessageCause, Misread, Refusal, TableCause};

// Reads a message of type t, by a table that passed.
fn read_passed(table: &Passed, t: usize, message: &[u8], buf: &mut [u8]) -> Result<usize, Refusal>
    ensures { let x = read_outcome (table_in table.now.octets.now) table.now.count t message.now buf.old in
        (result ≡ x.answer)
        × (buf.new ≡ x.buffer) }
{
    if table.count <= t {
        return Err(Refusal::Table(TableCause::Unknown));
    }
    if LONGEST_MESSAGE < message.len() {
        return Err(Refusal::Message(MessageCause::MessageLength(0)));
    }
    let mut way = [0u16; 128];
    let x = match judge::judge(table, t, message, &mut way) {
        Ok(x) => x,
        Err(u) => {
            let place = message.len() - u.left;
            return Err(Refusal::from(Misread {
                cause: u.cause,
                place,
            }));
        }
    };
    if LONGEST_VALUE < x.size {
        return Err(Refusal::Message(MessageCause::ValueRoom));
    }
    if buf.len() < x.size {
        return Err(Refusal::Message(MessageCause::ValueRoom));
    }
    place::place(table, t, message, buf, &mut way);
    Ok(x.size)
}

// Reads the message into the buffer, as a value of type t.
pub fn read(table: &[u8], t: usize, message: &[u8], buf: &mut [u8]) -> Result<usize, Refusal>
    ensures { let x = whole_read table.now t message.now buf.old in
        (result ≡ x.answer)
        × (buf.new ≡ x.buffer) }
{
    let mut index = Index {
        entries: [0u64; 128],
    };
    let table = Passed::check(&mut index, table)?;
    read_passed(&table, t, message, buf)
}
