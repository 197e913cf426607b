// A code and a cover from elsewhere, checked against a listing: all is read first, then the requirements are judged, and then the cover at each state and input.
#![tactic(auto)]

ghost use Rattle.std.specs.Prelude.{◌≡◌};
ghost use Rattle.rules.specs.Text.{lines_of};
ghost use Rattle.judge_check.specs.Checked.{begun_by, reader_for, settled, finished, cover_checked, found_of};

use judge_reading::Reader;
use judge_search::{FIRES_WORDS, SAYS_WORDS};
use rules::{CodeTable, Fault, Head, Listing, Refused, RequirementNumber};

// What checking finds where all can be read: the first pair or group requirement that is unmet, or where the cover does not agree, if anywhere.
#[derive(Clone, Copy)]
pub enum Checked {
    Unmet(RequirementNumber),
    Judged(Option<Fault>),
}

// A listing and its codes.
#[derive(Clone, Copy)]
pub struct Begun {
    pub listing: Listing,
    pub codes: CodeTable,
}

// What was read of a listing, and any bytes of codes: both, or which of them is refused and why.
#[tactic(auto, unfolding(crate::specs::Checked::begun_by, crate::specs::Checked::codes_begun))]
pub fn begin(got: Result<Listing, Refused>, codes: &[u8]) -> Result<Begun, Refused>
    ensures { result ≡ begun_by got (lines_of codes.now) }
{
    let listing = got?;
    let codes = judge_codes::read_codes(listing.head.states, codes)?;
    Ok(Begun { listing, codes })
}

// What a cover has to be like for a listing and its codes; of inputs, bits and outputs no more than there can be.
#[tactic(auto, unfolding(crate::specs::Checked::reader_for))]
pub fn reader_of(h: Head, c: CodeTable) -> Reader
    ensures { result ≡ reader_for h c }
{
    let inputs = sets::least(h.inputs, rules::MOST_INPUTS);
    let outputs = sets::least(h.outputs, rules::MOST_OUTPUTS);
    let width = sets::least(c.width, rules::MOST_BITS);
    Reader {
        inputs: h.inputs,
        taken: inputs + width,
        given: width + outputs,
        states: h.states,
        codes: c,
    }
}

// What is found when all is read.
#[tactic(auto, unfolding(crate::specs::Checked::settled))]
fn settle(begun: Begun, fires: &[u64; FIRES_WORDS], says: &[u64; SAYS_WORDS]) -> Checked
    ensures { result ≡ settled begun.listing begun.codes (fires.now, says.now) }
{
    let head = begun.listing.head;
    let bits = judge_codes::bits_of(begun.codes.table, head.states);
    match judge_unmet::first_unmet(begun.listing, begun.codes.width, bits) {
        Some(number) => Checked::Unmet(number),
        None => Checked::Judged(judge_search::find_fault(fires, says, head.states, head.inputs)),
    }
}

// What is found by the verdict on a cover and the tables of its rows and the listing's.
#[tactic(auto, unfolding(crate::specs::Checked::finished))]
pub fn finish(
    begun: Begun,
    verdict: Result<(), Refused>,
    fires: &[u64; FIRES_WORDS],
    says: &[u64; SAYS_WORDS],
) -> Result<Checked, Refused>
    ensures { result ≡ finished begun.listing begun.codes verdict (fires.now, says.now) }
{
    verdict?;
    Ok(settle(begun, fires, says))
}

// A cover, of a listing and codes that are read.
#[tactic(auto, unfolding(crate::specs::Checked::cover_checked, crate::specs::Checked::listing_tables))]
fn check_cover(begun: Begun, cover: &[u8]) -> Result<Checked, Refused>
    ensures { result ≡ cover_checked begun.listing begun.codes (lines_of cover.now) }
{
    let mut fires = [0u64; FIRES_WORDS];
    let mut says = [0u64; SAYS_WORDS];
    judge_rows::put_listing(begun.listing, begun.codes.table, &mut fires, &mut says);
    let q = reader_of(begun.listing.head, begun.codes);
    let verdict = judge_reading::read_cover(q, cover, &mut fires, &mut says);
    finish(begun, verdict, &fires, &says)
}

// What was read of a listing, and any bytes of codes and of a cover: what is found, or which of them is refused and why.
#[tactic(auto, unfolding(crate::specs::Checked::found_of))]
pub fn check(got: Result<Listing, Refused>, codes: &[u8], cover: &[u8]) -> Result<Checked, Refused>
    ensures { result ≡ found_of (begun_by got (lines_of codes.now)) (lines_of cover.now) }
{
    check_cover(begin(got, codes)?, cover)
}
