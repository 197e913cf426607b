// The lines of a report, a writer for each kind. Marks are fixed byte strings.
ghost use Rattle.rules.specs.Code.{code_of};
ghost use Rattle.rules.specs.Report.{code_text, count_line, state_line, met_line, unmet_line};
ghost use Rattle.write_pen.specs.Pen.{Wrote};

use rules::{BitNumber, RequirementNumber, StateNumber};

// A state's code, which is the value of the set of that state alone in each bit; a code of no bits is one dash.
fn put_code(out: &mut [u8], at: usize, bits: &[u64], s: StateNumber) -> usize
    ensures { Wrote out.old at (code_text (code_of bits.now s.0)) result out.new }
{
    if bits.is_empty() {
        return write_pen::put_byte(out, at, b'-');
    }
    write_pen::put_values(out, at, bits, sets::flipped(0, s.0), b'1')
}

// What a report counts: the bits, the requirements, those that no bit meets, and the passes and looks that it took.
#[derive(Clone, Copy)]
pub struct Counts {
    pub bits: usize,
    pub asked: usize,
    pub unmet: usize,
    pub passes: u64,
    pub looks: u64,
}

// `CT bits asked unmet passes looks`
pub fn put_count_line(out: &mut [u8], at: usize, c: Counts) -> usize
    ensures { Wrote out.old at (count_line c.bits c.asked c.unmet c.passes c.looks) result out.new }
{
    let p = write_pen::put_bytes(out, at, b"CT ");
    let q = write_pen::put_field(out, p, c.bits as u64, b' ');
    let r = write_pen::put_field(out, q, c.asked as u64, b' ');
    let s = write_pen::put_field(out, r, c.unmet as u64, b' ');
    let t = write_pen::put_field(out, s, c.passes, b' ');
    write_pen::put_field(out, t, c.looks, b'\n')
}

// `SC state code`
pub fn put_state_line(out: &mut [u8], at: usize, bits: &[u64], s: StateNumber) -> usize
    ensures { Wrote out.old at (state_line bits.now s) result out.new }
{
    let p = write_pen::put_bytes(out, at, b"SC ");
    let q = write_pen::put_field(out, p, s.0 as u64, b' ');
    let r = put_code(out, q, bits, s);
    write_pen::put_byte(out, r, b'\n')
}

// `BY number bit`
pub fn put_met_line(out: &mut [u8], at: usize, number: RequirementNumber, bit: BitNumber) -> usize
    ensures { Wrote out.old at (met_line number bit) result out.new }
{
    let p = write_pen::put_bytes(out, at, b"BY ");
    let q = write_pen::put_field(out, p, number.0 as u64, b' ');
    write_pen::put_field(out, q, bit.0 as u64, b'\n')
}

// `UN number`
pub fn put_unmet_line(out: &mut [u8], at: usize, number: RequirementNumber) -> usize
    ensures { Wrote out.old at (unmet_line number) result out.new }
{
    let p = write_pen::put_bytes(out, at, b"UN ");
    write_pen::put_field(out, p, number.0 as u64, b'\n')
}
