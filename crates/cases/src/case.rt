// What a case asks of the engine, and what is answered (FORMATS, "The program of cases").
ghost use Rattle.std.specs.Prelude.{◌≡◌, IfSome, get_or};
ghost use Rattle.cases.specs.Output.{lent, octet_of, case_outcome};

use coding::Refusal;

#[derive(Clone, Copy, Debug, PartialEq, Eq)]
pub enum Operation {
    Check,
    Write,
    Read,
}

// The operation of a case, by its head; none if the head has no mark, 43 41, or an operation that there is not.
pub fn operation_of(head: &[u8; 6]) -> Option<Operation>
    ensures { IfSome result (λ o. octet_of o ≡ get_or head.now 2 0) }
{
    if head[0] != 0x43 || head[1] != 0x41 {
        return None;
    }
    match head[2] {
        0 => Some(Operation::Check),
        1 => Some(Operation::Write),
        2 => Some(Operation::Read),
        _ => None,
    }
}

// What the engine answers to a case, and leaves in the buffer.
#[tactic(auto, unfolding(crate::specs::Output::case_outcome))]
pub fn answer(
    operation: Operation,
    t: usize,
    table: &[u8],
    data: &[u8],
    buf: &mut [u8; 16384],
) -> Result<usize, Refusal>
    requires { buf.old ≡ lent }
    ensures { let x = case_outcome (octet_of operation) t table.now «data».now in
        (result ≡ x.answer)
        × (buf.new ≡ x.buffer) }
{
    match operation {
        Operation::Check => engine::check(table),
        Operation::Write => engine::write(table, t, data, buf),
        Operation::Read => engine::read(table, t, data, buf),
    }
}
