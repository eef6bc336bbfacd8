// The engine for call control in C: octets and numbers in, one packed number out (FORMATS, "Answers for C"). The crate `link_c` exports each of
// its public functions to C.
#![tactic(auto)]

ghost use Rattle.std.specs.Prelude.{◌≡◌, ◌+◌, ◌*◌, ◌<◌};
ghost use Rattle.table.specs.Verdict.{verdict};
ghost use Rattle.coding.specs.Calls.{check_answer, whole_write, whole_read};
ghost use Rattle.coding.specs.Reckoning.{whole_order, whole_seconds};
ghost use Rattle.coding.specs.Conversion.{whole_to_generalized, whole_to_utc};
ghost use Rattle.link.specs.Pack.{low_part, packed, packed_reckoning};

use coding::Refusal;

fn join(high: u64, low: usize) -> u64
    requires { (high < 256) × (low < 65536) }
    ensures { result ≡ high * 65536 + low }
{
    high * 65536 + low as u64
}

// 0 and the length written, or the number of the refusal and its place.
fn pack(a: Result<usize, Refusal>) -> u64
    requires { low_part a < 65536 }
    ensures { result ≡ packed a }
{
    match a {
        Ok(n) => join(0, n),
        Err(r) => {
            let p = refusal::report_of(r);
            join(p.number, p.place)
        }
    }
}

pub fn yinscarf_check(table: &[u8]) -> u64
    ensures { result ≡ packed (check_answer (verdict table.now)) }
{
    pack(engine::check(table))
}

pub fn yinscarf_write(table: &[u8], t: usize, value: &[u8], buf: &mut [u8]) -> u64
    ensures { let x = whole_write table.now t value.now buf.old in
        (result ≡ packed x.answer)
        × (buf.new ≡ x.buffer) }
{
    pack(engine::write(table, t, value, buf))
}

pub fn yinscarf_read(table: &[u8], t: usize, message: &[u8], buf: &mut [u8]) -> u64
    ensures { let x = whole_read table.now t message.now buf.old in
        (result ≡ packed x.answer)
        × (buf.new ≡ x.buffer) }
{
    pack(engine::read(table, t, message, buf))
}

// The result itself, or the number of the refusal times 2^40.
fn pack_reckoning(a: Result<i64, Refusal>) -> i64
    ensures { result ≡ packed_reckoning a }
{
    match a {
        Ok(z) => z,
        Err(r) => {
            let p = refusal::report_of(r);
            (p.number * 1099511627776) as i64
        }
    }
}

pub fn yinscarf_order(first: &[u8], second: &[u8]) -> i64
    ensures { result ≡ packed_reckoning (whole_order first.now second.now) }
{
    pack_reckoning(times::reckoning::order(first, second))
}

pub fn yinscarf_seconds(first: &[u8], second: &[u8]) -> i64
    ensures { result ≡ packed_reckoning (whole_seconds first.now second.now) }
{
    pack_reckoning(times::reckoning::elapsed(first, second))
}

pub fn yinscarf_to_generalized(version: usize, time: &[u8], buf: &mut [u8]) -> u64
    ensures { let x = whole_to_generalized version time.now buf.old in
        (result ≡ packed x.answer)
        × (buf.new ≡ x.buffer) }
{
    pack(times::conversion::to_generalized(version, time, buf))
}

pub fn yinscarf_to_utc(version: usize, time: &[u8], buf: &mut [u8]) -> u64
    ensures { let x = whole_to_utc version time.now buf.old in
        (result ≡ packed x.answer)
        × (buf.new ≡ x.buffer) }
{
    pack(times::conversion::to_utc(version, time, buf))
}
