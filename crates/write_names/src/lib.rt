// The names of states as a text: `NM state name` for each state, ascending, and the end. Marks are fixed byte strings.
#![tactic(auto)]

ghost use Rattle.std.specs.Prelude.{◌≡◌};
ghost use Rattle.rules.specs.Report.{joined_lines};
ghost use Rattle.rules.specs.NamesText.{name_line, name_lines_from, names_text};
ghost use Rattle.read_names.specs.Names.{names_in};
ghost use Rattle.write_pen.specs.Pen.{Wrote};

use read_names::Names;
use rules::StateNumber;

// `NM state name`
fn put_line(out: &mut [u8], at: usize, s: StateNumber, name: &[u8]) -> usize
    ensures { Wrote out.old at (name_line s name.now) result out.new }
{
    let p = write_pen::put_bytes(out, at, b"NM ");
    let q = write_pen::put_field(out, p, s.0 as u64, b' ');
    let r = write_pen::put_bytes(out, q, name);
    write_pen::put_byte(out, r, b'\n')
}

// A line for each state.
fn put_states(out: &mut [u8], text: &[u8], names: Names) -> usize
    ensures { Wrote out.old 0 (joined_lines (name_lines_from 0 (names_in text.now names))) result out.new }
{
    let n = sets::least(names.count, rules::MOST_STATES);
    let mut to = 0;
    for i in 0..n {
        let name = read_names::bytes_of(text, names.places[i]);
        to = put_line(out, to, StateNumber(i), name);
    }
    to
}

// The names that stand in a text, from the start of the buffer on, and the end. What falls behind the buffer's end is lost, so a run on a small buffer tells
// the length.
pub fn put_names(out: &mut [u8], text: &[u8], names: Names) -> usize
    ensures { Wrote out.old 0 (names_text (names_in text.now names)) result out.new }
{
    let end = put_states(out, text, names);
    write_pen::put_bytes(out, end, b"EN\n")
}
