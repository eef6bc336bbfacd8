// Writes values as messages: the octets of a value are judged against a table and a type, and its form is put into a lent buffer. `lone` judges
// octets with no table: whether they are one node.
#![tactic(auto)]

mod contents;
mod frame;
mod judge;
pub mod lone;
mod node;
mod put;

ghost use Rattle.std.specs.Prelude.{◌≡◌, ◌≤◌, length};
ghost use Rattle.table.specs.Reading.{table_in};
ghost use Rattle.coding.specs.Calls.{write_outcome, whole_write};

use checker::passed::{Index, Passed};
use coding::{LONGEST_MESSAGE, LONGEST_VALUE, Refusal, TableCause, ValueCause};

// Writes a value of type t, by a table that passed.
fn write_passed(table: &Passed, t: usize, value: &[u8], buf: &mut [u8]) -> Result<usize, Refusal>
    requires { length buf.old ≤ 8192 }
    ensures { let x = write_outcome (table_in table.now.octets.now) table.now.count t value.now buf.old in
        (result ≡ x.answer)
        × (buf.new ≡ x.buffer) }
{
    if table.count <= t {
        return Err(Refusal::Table(TableCause::Unknown));
    }
    if LONGEST_VALUE < value.len() {
        return Err(Refusal::Value(ValueCause::ValueShape(0)));
    }
    let mut notes = [0u16; 4096];
    let judged = judge::judge(table, t, value, &mut notes)?;
    let size = judged.size;
    if judged.end < value.len() {
        return Err(Refusal::Value(ValueCause::ValueShape(judged.end)));
    }
    if buf.len() < size {
        return Err(Refusal::Value(ValueCause::MessageRoom));
    }
    put::put(table, t, value, &notes, buf);
    Ok(size)
}

// Writes the value whose octets are lent as a message of type t into the buffer, of which it takes at most 8,192 octets.
pub fn write(table: &[u8], t: usize, value: &[u8], buf: &mut [u8]) -> Result<usize, Refusal>
    ensures { let x = whole_write table.now t value.now buf.old in
        (result ≡ x.answer)
        × (buf.new ≡ x.buffer) }
{
    let mut index = Index {
        entries: [0u64; 128],
    };
    let table = Passed::check(&mut index, table)?;
    let room = buf.len().min(LONGEST_MESSAGE);
    write_passed(&table, t, value, &mut buf[..room])
}
