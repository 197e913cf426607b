// `PT input group next outputs`, and in a Moore machine `PT input group next`: a row.
ghost use Rattle.std.specs.Prelude.{◌≡◌};
ghost use Rattle.rules.specs.Lines.{row_checked, row_line};
ghost use Rattle.read_lines.specs.Rows.{row_read, row_end, row_rest};

use read_fields::{ones_in, pattern_in};
use read_pieces::{behind, cut, first_of, stands_at};
use rules::{Head, Pattern, Refusal, Row};

// A row whose characters are in order, behind `count` others.
fn row_checked(count: usize, row: Row) -> Result<Row, Refusal>
    ensures { result ≡ row_checked count row }
{
    if rules::MOST_ROWS <= count {
        return Err(Refusal::Limit);
    }
    if row.group == 0 {
        return Err(Refusal::EmptyGroup);
    }
    if !sets::few(row.next) {
        return Err(Refusal::NextState);
    }
    Ok(row)
}

// The row of the three fields that every row has, and of outputs that are read already.
#[tactic(auto, using(crate::proofs::row::Laws::read), unfolding(crate::specs::Rows::row_read, rules::specs::Lines::row_fits))]
fn row_read(
    h: Head,
    count: usize,
    line: usize,
    input: &[u8],
    group: &[u8],
    next: &[u8],
    outputs: Pattern,
) -> Result<Row, Refusal>
    ensures { result ≡ row_read h count line input.now group.now next.now outputs }
{
    let asked = pattern_in(input, rules::MOST_INPUTS, h.inputs).ok_or(Refusal::BadLine)?;
    let states = ones_in(group, rules::MOST_STATES, h.states).ok_or(Refusal::BadLine)?;
    let named = ones_in(next, rules::MOST_STATES, h.states).ok_or(Refusal::BadLine)?;
    row_checked(
        count,
        Row {
            input: asked,
            group: states,
            next: named,
            outputs: outputs,
            line: line,
        },
    )
}

// What stands behind the group and its space, where the row has outputs: the next state has a space behind it.
#[tactic(auto, using(crate::proofs::row::Laws::ended))]
fn row_end(
    h: Head,
    count: usize,
    line: usize,
    input: &[u8],
    group: &[u8],
    v: &[u8],
) -> Result<Row, Refusal>
    ensures { result ≡ row_end h count line input.now group.now v.now }
{
    if !stands_at(v, h.states, b' ') {
        return Err(Refusal::BadLine);
    }
    let outputs = pattern_in(behind(v, h.states), rules::MOST_OUTPUTS, h.outputs).ok_or(
        Refusal::BadLine,
    )?;
    row_read(h, count, line, input, group, first_of(v, h.states), outputs)
}

// What stands behind the mark and its space: each field but the last has a space behind it, at the place that the head gives it.
fn row_rest(h: Head, count: usize, line: usize, t: &[u8]) -> Result<Row, Refusal>
    ensures { result ≡ row_rest h count line t.now }
{
    if !stands_at(t, h.inputs, b' ') {
        return Err(Refusal::BadLine);
    }
    let u = behind(t, h.inputs);
    if !stands_at(u, h.states, b' ') {
        return Err(Refusal::BadLine);
    }
    let v = behind(u, h.states);
    let input = first_of(t, h.inputs);
    let group = first_of(u, h.states);
    if h.moore {
        let none = Pattern { ones: 0, dashes: 0 };
        return row_read(h, count, line, input, group, v, none);
    }
    row_end(h, count, line, input, group, v)
}

// What a `PT` line says, as line number `line` and behind `count` rows.
pub fn row_line(h: Head, count: usize, line: usize, l: &[u8]) -> Result<Row, Refusal>
    ensures { result ≡ row_line h count line l.now }
{
    let mark = cut(l, 0, b' ');
    if l.len() <= mark {
        return Err(Refusal::BadLine);
    }
    row_rest(h, count, line, behind(l, mark))
}
