// The program of cases (FORMATS, "The program of cases"): reads cases from standard input and prints a line for each.
#![tactic(auto)]

mod case;
mod line;
mod text;

ghost use Rattle.std.specs.Prelude.{◌≡◌, ◌≤◌, length, IfOk, OnOk};
ghost use Rattle.std.specs.Io.KnownBytes.{Appends};
ghost use Rattle.cases.specs.Output.{octet_of, case_line};
ghost use Rattle.cases.specs.declared.Stop.TheVariants.{Io};

use case::Operation;
use line::{say, say_cut};
use std::io;
use std::io::{Read, Write};
use text::Line;

// The longest table, and the longest data, that a case may have.
const LONGEST: usize = 16385;

// Why no answer is printed for a case: there is none, it is cut or has no mark, or reading or writing failed.
#[derive(Debug, Drop)]
enum Stop {
    End,
    Cut,
    Io(io::Error),
}

impl From<io::Error> for Stop {
    ghost from_gives = { λ x r. r ≡ Io x };

    fn from(x: io::Error) -> Stop {
        Stop::Io(x)
    }
}

// Reads until a buffer is full or the input ends; the octets read.
fn read_full<R: Read>(input: &mut R, buf: &mut [u8]) -> io::Result<usize>
    ensures { IfOk result (λ n. n ≤ length buf.new) }
{
    let mut done = 0;
    while done < buf.len() {
        let n = input.read(&mut buf[done..])?;
        if n == 0 {
            break;
        }
        done += n;
    }
    Ok(done)
}

// Reads as many octets as two octets tell, the high one first, to the start of a buffer; how many they are.
fn read_part<R: Read>(input: &mut R, size: [u8; 2], buf: &mut [u8; LONGEST]) -> Result<usize, Stop>
    ensures { IfOk result (λ n. n ≤ 16385) }
{
    let n = usize::from(u16::from_be_bytes(size));
    if LONGEST < n {
        return Err(Stop::Cut);
    }
    if read_full(input, &mut buf[..n])? < n {
        return Err(Stop::Cut);
    }
    Ok(n)
}

// Runs a case and prints its line.
#[tactic(auto, unfolding(crate::specs::Output::lent, crate::specs::Output::case_line))]
fn run<W: Write>(
    output: &mut W,
    line: &mut Line,
    number: u64,
    operation: Operation,
    t: usize,
    table: &[u8],
    data: &[u8],
) -> io::Result<()>
    ensures { OnOk result (Appends (W.contents output.old) (W.contents output.new)
        (case_line number (octet_of operation) t table.now «data».now)) }
{
    let mut buf = [0u8; 16384];
    let answer = case::answer(operation, t, table, data, &mut buf);
    say(output, line, number, answer, &buf)
}

// One case: its head, the table, the size of the data, the data.
fn one<R: Read, W: Write>(
    input: &mut R,
    output: &mut W,
    line: &mut Line,
    number: u64,
) -> Result<(), Stop> {
    let mut head = [0u8; 6];
    let got = read_full(input, &mut head)?;
    if got == 0 {
        return Err(Stop::End);
    }
    if got < 6 {
        return Err(Stop::Cut);
    }
    let Some(operation) = case::operation_of(&head) else {
        return Err(Stop::Cut);
    };
    let mut table = [0u8; LONGEST];
    let k = read_part(input, [head[4], head[5]], &mut table)?;
    let mut size = [0u8; 2];
    if read_full(input, &mut size)? < 2 {
        return Err(Stop::Cut);
    }
    let mut data = [0u8; LONGEST];
    let n = read_part(input, size, &mut data)?;
    run(
        output,
        line,
        number,
        operation,
        usize::from(head[3]),
        &table[..k],
        &data[..n],
    )?;
    Ok(())
}

// Cases up to the end of the input or to one that is cut, which is then said; the number bounds the loop.
fn main(rt: HostRuntime) -> io::Result<()> {
    let mut input = rt.stdin();
    let mut output = rt.stdout();
    let mut line = Line::new();
    for number in 1..u64::MAX {
        match one(&mut input, &mut output, &mut line, number) {
            Ok(()) => {}
            Err(Stop::End) => break,
            Err(Stop::Cut) => return say_cut(&mut output, &mut line, number),
            Err(Stop::Io(e)) => return Err(e),
        }
    }
    Ok(())
}
