// A line in a buffer of fixed size, and what `write!` and `writeln!` put into it. That wants room, and cannot fail, as a text by `fmt::Display` can.
ghost use Rattle.std.specs.Prelude.{◌≡◌, ℕ, ◌+◌, ◌*◌, ◌<◌, ◌≤◌, List, [], ◌∷◌, ◌++◌, length, take};
ghost use Rattle.std.specs.Fmt.{format_pieces};
ghost use Rattle.cases.specs.Output.{longest, digit, decimal, hexadecimal};

use std::fmt::Format;
use std::marker::Model;

// The longest line: `longest` of specs/Output.antt.
const LINE: usize = 32793;

// A line as far as it is made.
#[derive(Drop)]
pub struct Line {
    octets: [u8; LINE],
    len: usize,
}

impl Model for Line {
    ghost Value = { List ℕ };

    ghost view = { λ l. take l.len l.octets };

    ghost invariant = { λ l. l.len ≤ 32793 };
}

// What can be put into a line: a piece of a format, or its pieces one after another.
pub trait Text {
    ghost text: { Self → List ℕ };

    fn put(&self, line: &mut Line)
        requires { length line.old + length (text self.now) ≤ longest }
        ensures { line.new ≡ line.old ++ text self.now };
}

impl Line {
    // An empty line.
    pub fn new() -> Line
        ensures { result ≡ [] }
    {
        Line {
            octets: [0; LINE],
            len: 0,
        }
    }

    // Makes the line empty.
    pub fn clear(&mut self)
        ensures { self.new ≡ [] }
    {
        self.len = 0;
    }

    // The octets of the line.
    pub fn octets(&self) -> &[u8]
        ensures { result.now ≡ self.now }
    {
        &self.octets[..self.len]
    }

    // Puts octets as they are.
    fn push(&mut self, text: &[u8])
        requires { length self.old + length text.now ≤ longest }
        ensures { self.new ≡ self.old ++ text.now }
    {
        let end = self.len + text.len();
        self.octets[self.len..end].copy_from_slice(text);
        self.len = end;
    }

    // Puts a number in decimal.
    fn push_decimal(&mut self, n: u64)
        requires { length self.old + length (decimal n) ≤ longest }
        ensures { self.new ≡ self.old ++ decimal n }
    {
        let mut digits = [0u8; 20];
        let mut at = 20;
        let mut rest = n;
        while rest >= 10 {
            at -= 1;
            digits[at] = b'0' + (rest % 10) as u8;
            rest /= 10;
        }
        at -= 1;
        digits[at] = b'0' + rest as u8;
        self.push(&digits[at..]);
    }

    // Puts octets in small hexadecimal.
    pub fn push_hexadecimal(&mut self, octets: &[u8])
        requires { length self.old + 2 * length octets.now ≤ longest }
        ensures { self.new ≡ self.old ++ hexadecimal octets.now }
    {
        let end = self.len + 2 * octets.len();
        spell(octets, &mut self.octets[self.len..end]);
        self.len = end;
    }

    // What `write!` and `writeln!` call.
    pub fn write_fmt<T: Text + Drop>(&mut self, text: Format<T>)
        requires { length self.old + length (T.text (format_pieces text)) ≤ longest }
        ensures { self.new ≡ self.old ++ T.text (format_pieces text) }
    {
        text.0.put(self);
    }
}

// A digit of small hexadecimal.
fn digit(x: u8) -> u8
    requires { x < 16 }
    ensures { result ≡ digit x }
{
    if x < 10 { 48 + x } else { 87 + x }
}

// Octets in small hexadecimal, two digits each.
fn spell(octets: &[u8], digits: &mut [u8])
    requires { length digits.old ≡ 2 * length octets.now }
    ensures { digits.new ≡ hexadecimal octets.now }
{
    for i in 0..octets.len() {
        digits[2 * i] = digit(octets[i] / 16);
        digits[2 * i + 1] = digit(octets[i] % 16);
    }
}

impl Text for &u64 {
    ghost text = { λ n. decimal n.now };

    fn put(&self, line: &mut Line) {
        line.push_decimal(**self);
    }
}

impl Text for &str {
    ghost text = { λ s. s.now };

    fn put(&self, line: &mut Line) {
        line.push(self.as_bytes());
    }
}

impl<A: Text> Text for (A,) {
    ghost text = { λ t. A.text t.0 };

    fn put(&self, line: &mut Line) {
        self.0.put(line);
    }
}

impl<A: Text, B: Text> Text for (A, B) {
    ghost text = { λ t. A.text t.0 ++ B.text t.1 };

    fn put(&self, line: &mut Line) {
        self.0.put(line);
        self.1.put(line);
    }
}

impl<A: Text, B: Text, C: Text, D: Text, E: Text, F: Text> Text for (A, B, C, D, E, F) {
    ghost text = { λ t. A.text t.0 ++ (B.text t.1 ++ (C.text t.2 ++ (D.text t.3 ++ (E.text t.4 ++ F.text t.5)))) };

    fn put(&self, line: &mut Line) {
        self.0.put(line);
        self.1.put(line);
        self.2.put(line);
        self.3.put(line);
        self.4.put(line);
        self.5.put(line);
    }
}
