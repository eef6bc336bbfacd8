// The functions that C calls, by the names of the header (FORMATS, "Answers for C"): each is the function of its name in `link`, with the same
// promise. A slice crosses as a pointer and a length.
#![tactic(auto)]

ghost use Rattle.std.specs.Prelude.{◌≡◌};
ghost use Rattle.table.specs.Verdict.{verdict};
ghost use Rattle.coding.specs.Calls.{check_answer, whole_write, whole_read};
ghost use Rattle.coding.specs.Reckoning.{whole_order, whole_seconds};
ghost use Rattle.coding.specs.Conversion.{whole_to_generalized, whole_to_utc};
ghost use Rattle.link.specs.Pack.{packed, packed_reckoning};

#[unsafe(no_mangle)]
pub extern "C" fn yinscarf_check(table: &[u8]) -> u64
    ensures { result ≡ packed (check_answer (verdict table.now)) }
{
    link::yinscarf_check(table)
}

#[unsafe(no_mangle)]
pub extern "C" fn yinscarf_write(table: &[u8], t: usize, value: &[u8], buf: &mut [u8]) -> u64
    ensures { let x = whole_write table.now t value.now buf.old in
        (result ≡ packed x.answer)
        × (buf.new ≡ x.buffer) }
{
    link::yinscarf_write(table, t, value, buf)
}

#[unsafe(no_mangle)]
pub extern "C" fn yinscarf_read(table: &[u8], t: usize, message: &[u8], buf: &mut [u8]) -> u64
    ensures { let x = whole_read table.now t message.now buf.old in
        (result ≡ packed x.answer)
        × (buf.new ≡ x.buffer) }
{
    link::yinscarf_read(table, t, message, buf)
}

#[unsafe(no_mangle)]
pub extern "C" fn yinscarf_order(first: &[u8], second: &[u8]) -> i64
    ensures { result ≡ packed_reckoning (whole_order first.now second.now) }
{
    link::yinscarf_order(first, second)
}

#[unsafe(no_mangle)]
pub extern "C" fn yinscarf_seconds(first: &[u8], second: &[u8]) -> i64
    ensures { result ≡ packed_reckoning (whole_seconds first.now second.now) }
{
    link::yinscarf_seconds(first, second)
}

#[unsafe(no_mangle)]
pub extern "C" fn yinscarf_to_generalized(version: usize, time: &[u8], buf: &mut [u8]) -> u64
    ensures { let x = whole_to_generalized version time.now buf.old in
        (result ≡ packed x.answer)
        × (buf.new ≡ x.buffer) }
{
    link::yinscarf_to_generalized(version, time, buf)
}

#[unsafe(no_mangle)]
pub extern "C" fn yinscarf_to_utc(version: usize, time: &[u8], buf: &mut [u8]) -> u64
    ensures { let x = whole_to_utc version time.now buf.old in
        (result ≡ packed x.answer)
        × (buf.new ≡ x.buffer) }
{
    link::yinscarf_to_utc(version, time, buf)
}
