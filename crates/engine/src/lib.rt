// The link engine: check a type table, write a value as a message, read a message into a value.
#![tactic(auto)]

ghost use Rattle.std.specs.Prelude.{◌≡◌};
ghost use Rattle.table.specs.Verdict.{verdict};
ghost use Rattle.coding.specs.Calls.{check_answer, whole_write, whole_read};

use coding::Refusal;

// Whether a table passes: Ok with 0, or the first refusal of its table.
#[tactic(auto, unfolding(coding::specs::Calls::check_answer))]
pub fn check(table: &[u8]) -> Result<usize, Refusal>
    ensures { result ≡ check_answer (verdict table.now) }
{
    checker::check(table)?;
    Ok(0)
}

// Writes the value whose octets are lent as a message of type t into the buffer.
pub fn write(table: &[u8], t: usize, value: &[u8], buf: &mut [u8]) -> Result<usize, Refusal>
    ensures { let x = whole_write table.now t value.now buf.old in
        (result ≡ x.answer)
        × (buf.new ≡ x.buffer) }
{
    writer::write(table, t, value, buf)
}

// Reads the message into the buffer, as a value of type t.
pub fn read(table: &[u8], t: usize, message: &[u8], buf: &mut [u8]) -> Result<usize, Refusal>
    ensures { let x = whole_read table.now t message.now buf.old in
        (result ≡ x.answer)
        × (buf.new ≡ x.buffer) }
{
    reader::read(table, t, message, buf)
}
