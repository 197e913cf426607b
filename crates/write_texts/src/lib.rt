// What can be written of a listing and its code: the report, the cover, what each width buys, or the listing itself, as lines; and whether it is to be had.
// Each writer is called in one place.
#![tactic(auto)]

ghost use Rattle.std.specs.Prelude.{◌≡◌};
ghost use Rattle.write_parts.specs.Parts.{added_all};
ghost use Rattle.write_texts.specs.Texts.{cover_verdict, verdict_of, text_lines};
ghost use Rattle.write_texts.specs.declared.Text.{Text};

use rules::{Encoding, Listing, Refusal, Refused};
use write_parts::Part;

// Which text is written.
#[derive(Clone, Copy)]
pub enum Text {
    Report,
    Cover,
    Widths,
    Listing,
}

// A cover is refused 9 where a pair or group requirement is unmet.
fn cover_verdict(t: Listing, e: Encoding) -> Result<(), Refused>
    ensures { result ≡ cover_verdict t e }
{
    let mut fs = [0u64; code_drawing::ALL_WORDS];
    let words = code_drawing::draw_first(t, &mut fs);
    if code_judging::is_any_unmet(e, &fs[..words]) {
        return Err(Refusal::Unmet.at(0));
    }
    Ok(())
}

// Whether a text is refused in a code that there is: a cover can be, the others never are.
pub fn verdict_of(text: Text, t: Listing, e: Encoding) -> Result<(), Refused>
    ensures { result ≡ verdict_of text t e }
{
    match text {
        Text::Report => Ok(()),
        Text::Cover => cover_verdict(t, e),
        Text::Widths => Ok(()),
        Text::Listing => Ok(()),
    }
}

// The report.
fn add_report(t: Listing, e: Encoding, part: Part, out: &mut [u8]) -> Part
    ensures { (result, out.new) ≡ added_all (text_lines Text.Report t e) (part, out.old) }
{
    let mut fs = [0u64; code_drawing::ALL_WORDS];
    let words = code_drawing::draw_all(t, &mut fs);
    write_report::add_report(out, part, t.head.states, e, &fs[..words])
}

// The cover.
fn add_cover(t: Listing, e: Encoding, part: Part, out: &mut [u8]) -> Part
    ensures { (result, out.new) ≡ added_all (text_lines Text.Cover t e) (part, out.old) }
{
    let bits = e.bits;
    write_cover::add_cover(out, part, t, e.width, bits)
}

// What each width buys. Of the families those of the pairs and the groups stand in front.
fn add_widths(t: Listing, e: Encoding, part: Part, out: &mut [u8]) -> Part
    ensures { (result, out.new) ≡ added_all (text_lines Text.Widths t e) (part, out.old) }
{
    let mut fs = [0u64; code_drawing::ALL_WORDS];
    let first = code_drawing::draw_first(t, &mut fs);
    let words = code_drawing::draw_all(t, &mut fs);
    write_widths::add_widths(out, part, e, &fs[..words], first)
}

// The lines of a text, added to a part.
pub fn add_lines(text: Text, t: Listing, e: Encoding, part: Part, out: &mut [u8]) -> Part
    ensures { (result, out.new) ≡ added_all (text_lines text t e) (part, out.old) }
{
    match text {
        Text::Report => add_report(t, e, part, out),
        Text::Cover => add_cover(t, e, part, out),
        Text::Widths => add_widths(t, e, part, out),
        Text::Listing => write_listing::add_listing(out, part, t),
    }
}
