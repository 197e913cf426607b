// The lines of a cover from elsewhere, one by one: the heads, a row, the end.
#![tactic(auto)]

ghost use Rattle.std.specs.Prelude.{◌≡◌, ◌||◌, eqb};
ghost use Rattle.rules.specs.Text.{nought, one, dash, all_of};
ghost use Rattle.rules.specs.CheckTexts.{number_behind, places_fit, row_good, with_inputs, with_outputs, with_products, row_counted, end_counted, cover_line_in, cover_line, fitting};
ghost use Rattle.rules.specs.declared.CoverPart.TheVariants.{Kind, Rows};
ghost use Rattle.read_marks.specs.Marks.{two_of};

use read_pieces::{field, field_count};
use rules::{CoverHeads, CoverPart, Refusal, Refused};

// The number behind a mark, where the line is both.
fn number_behind(l: &[u8], m: &[u8; 2]) -> Option<usize>
    ensures { result ≡ number_behind (two_of m.now) l.now }
{
    if field_count(l) != 2 {
        return None;
    }
    if !read_marks::is_mark(field(l, 0), m) {
        return None;
    }
    read_fields::numeral_of(field(l, 1))
}

// Whether a character is `0`, `1` or `-`.
fn is_place(x: u8) -> bool
    ensures { result ≡ (eqb x nought || (eqb x one || eqb x dash)) }
{
    matches!(x, b'0' | b'1' | b'-')
}

// Whether a field is characters `0 1 -`.
fn are_places(f: &[u8]) -> bool
    ensures { result ≡ all_of nought one dash f.now }
{
    f.iter().all(|x| is_place(*x))
}

// Whether a field is k characters `0 1 -`, and not none.
fn places_fit(k: usize, f: &[u8]) -> bool
    ensures { result ≡ places_fit k f.now }
{
    if k < 1 {
        return false;
    }
    if f.len() != k {
        return false;
    }
    are_places(f)
}

// Whether a line is a row of so many inputs and outputs.
fn is_row(h: CoverHeads, l: &[u8]) -> bool
    ensures { result ≡ row_good h l.now }
{
    if field_count(l) != 2 {
        return false;
    }
    if !places_fit(h.inputs, field(l, 0)) {
        return false;
    }
    places_fit(h.outputs, field(l, 1))
}

// `.i` and its number.
fn inputs_said(said: Option<usize>, h: CoverHeads) -> Result<CoverHeads, Refusal>
    ensures { result ≡ with_inputs said h }
{
    let inputs = said.ok_or(Refusal::BadLine)?;
    Ok(CoverHeads {
        part: CoverPart::Outputs,
        inputs,
        ..h
    })
}

// `.o` and its number.
fn outputs_said(said: Option<usize>, h: CoverHeads) -> Result<CoverHeads, Refusal>
    ensures { result ≡ with_outputs said h }
{
    let outputs = said.ok_or(Refusal::BadLine)?;
    Ok(CoverHeads {
        part: CoverPart::Kind,
        outputs,
        ..h
    })
}

// `.p` and its number.
fn products_said(said: Option<usize>, h: CoverHeads) -> Result<CoverHeads, Refusal>
    ensures { result ≡ with_products said h }
{
    let products = said.ok_or(Refusal::BadLine)?;
    Ok(CoverHeads {
        part: CoverPart::Rows,
        products,
        ..h
    })
}

// A row, one more than there were.
fn row_said(h: CoverHeads, l: &[u8]) -> Result<CoverHeads, Refusal>
    ensures { result ≡ row_counted h l.now }
{
    if !is_row(h, l) {
        return Err(Refusal::BadLine);
    }
    if h.products <= h.rows {
        return Err(Refusal::BadLine);
    }
    if rules::MOST_CHECKED <= h.rows {
        return Err(Refusal::Limit);
    }
    Ok(CoverHeads {
        part: CoverPart::Rows,
        rows: h.rows + 1,
        ..h
    })
}

// `.e`, behind the rows.
fn end_said(h: CoverHeads) -> Result<CoverHeads, Refusal>
    ensures { result ≡ end_counted h }
{
    if h.rows != h.products {
        return Err(Refusal::BadLine);
    }
    Ok(CoverHeads {
        part: CoverPart::Over,
        ..h
    })
}

// `.type fd` or, without it, `.p`.
fn kind_said(h: CoverHeads, l: &[u8]) -> Result<CoverHeads, Refusal>
    ensures { result ≡ cover_line_in Kind h l.now }
{
    if read_names::same_bytes(l, b".type fd") {
        return Ok(CoverHeads {
            part: CoverPart::Products,
            ..h
        });
    }
    products_said(number_behind(l, b".p"), h)
}

// A row, or `.e`.
fn body_said(h: CoverHeads, l: &[u8]) -> Result<CoverHeads, Refusal>
    ensures { result ≡ cover_line_in Rows h l.now }
{
    if read_marks::is_mark(l, b".e") {
        return end_said(h);
    }
    row_said(h, l)
}

// What a line does, behind those that said h.
pub fn line_said(h: CoverHeads, l: &[u8]) -> Result<CoverHeads, Refusal>
    ensures { result ≡ cover_line h l.now }
{
    match h.part {
        CoverPart::Inputs => inputs_said(number_behind(l, b".i"), h),
        CoverPart::Outputs => outputs_said(number_behind(l, b".o"), h),
        CoverPart::Kind => kind_said(h, l),
        CoverPart::Products => products_said(number_behind(l, b".p"), h),
        CoverPart::Rows => body_said(h, l),
        CoverPart::Over => Err(Refusal::BadLine),
    }
}

// Whether `.i` and `.o` are as they have to be: 15 at the line of the one that is not, `.i` first.
pub fn fit_of(inputs: usize, outputs: usize, h: CoverHeads) -> Result<(), Refused>
    ensures { result ≡ fitting inputs outputs h }
{
    if h.inputs != inputs {
        return Err(Refusal::Misfit.at(1));
    }
    if h.outputs != outputs {
        return Err(Refusal::Misfit.at(2));
    }
    Ok(())
}
