// The lines that the program prints (FORMATS, "The program of cases"). Each is made whole, whatever the output does, and then written at once.
ghost use Rattle.std.specs.Prelude.{◌≡◌, ◌≤◌, [], length, OnOk};
ghost use Rattle.std.specs.Io.KnownBytes.{Appends};
ghost use Rattle.cases.specs.Output.{done_line, cut_line, output_line};

use crate::text::Line;
use coding::Refusal;
use refusal::report_of;
use std::io;
use std::io::Write;

// `1 ok 56410101`, or `1 ok`
fn put_done(line: &mut Line, number: u64, octets: &[u8])
    requires empty { line.old ≡ [] }
    requires short { length octets.now ≤ 16384 }
    ensures { line.new ≡ done_line number octets.now }
{
    if octets.is_empty() {
        writeln!(line, "{number} ok");
    } else {
        write!(line, "{number} ok ");
        line.push_hexadecimal(octets);
        writeln!(line);
    }
}

// `1 cut`
fn put_cut(line: &mut Line, number: u64)
    requires { line.old ≡ [] }
    ensures { line.new ≡ cut_line number }
{
    writeln!(line, "{number} cut");
}

// The line for an answer, as `1 no 25 0`; what is done has its result at the start of the buffer.
fn put_answer(line: &mut Line, number: u64, answer: Result<usize, Refusal>, buf: &[u8; 16384])
    requires { line.old ≡ [] }
    ensures { line.new ≡ output_line number answer buf.now }
{
    match answer {
        Ok(n) => put_done(line, number, &buf[..n.min(buf.len())]),
        Err(r) => {
            let report = report_of(r);
            let place = report.place as u64;
            writeln!(line, "{number} no {} {place}", report.number);
        }
    }
}

// Says that a case is cut, in a line that is lent.
pub fn say_cut<W: Write>(output: &mut W, line: &mut Line, number: u64) -> io::Result<()>
    ensures { OnOk result (Appends (W.contents output.old) (W.contents output.new) (cut_line number)) }
{
    line.clear();
    put_cut(line, number);
    output.write_all(line.octets())
}

// Says what is answered to a case, in a line that is lent.
pub fn say<W: Write>(
    output: &mut W,
    line: &mut Line,
    number: u64,
    answer: Result<usize, Refusal>,
    buf: &[u8; 16384],
) -> io::Result<()>
    ensures { OnOk result (Appends (W.contents output.old) (W.contents output.new)
        (output_line number answer buf.now)) }
{
    line.clear();
    put_answer(line, number, answer, buf);
    output.write_all(line.octets())
}
