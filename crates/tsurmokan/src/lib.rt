// The library for a C host: a listing's bytes and an output buffer in, and the length of the text, or minus (number × 100,000 + line), out.
// Entries that differ only in what is wanted stay apart, since a C host calls each by its own symbol.
#![tactic(auto, unfolding(host_replies::specs::Saying::reply_to))]

mod checks;
mod numbers;
mod records;
mod runs;

ghost use Rattle.std.specs.Prelude.{◌≡◌};
ghost use Rattle.rules.specs.Answers.{report_reply, cover_reply, answered};
ghost use Rattle.rules.specs.Parts.{answered_part};
ghost use Rattle.rules.specs.KissAnswers.{kiss_report_reply, kiss_cover_reply, kiss_listing_reply, kiss_names_reply};
ghost use Rattle.rules.specs.Least.{least_reply, least_cover_reply};
ghost use Rattle.rules.specs.Widths.{widths_reply};

use host_replies::plans::Wanted;

// The report.
#[unsafe(no_mangle)]
pub extern "C" fn tsurmokan_report(listing: &[u8], out: &mut [u8]) -> i64
    ensures { (result, out.new) ≡ answered (report_reply listing.now) out.old }
{
    numbers::answer(Wanted::Report, listing, out)
}

// The cover.
#[unsafe(no_mangle)]
pub extern "C" fn tsurmokan_cover(listing: &[u8], out: &mut [u8]) -> i64
    ensures { (result, out.new) ≡ answered (cover_reply listing.now) out.old }
{
    numbers::answer(Wanted::Cover, listing, out)
}

// What each width buys.
#[unsafe(no_mangle)]
pub extern "C" fn tsurmokan_widths(listing: &[u8], out: &mut [u8]) -> i64
    ensures { (result, out.new) ≡ answered (widths_reply listing.now) out.old }
{
    numbers::answer(Wanted::Widths, listing, out)
}

// The report of the least code of a small machine.
#[unsafe(no_mangle)]
pub extern "C" fn tsurmokan_least(listing: &[u8], out: &mut [u8]) -> i64
    ensures { (result, out.new) ≡ answered (least_reply listing.now) out.old }
{
    numbers::answer(Wanted::Least, listing, out)
}

// The cover in that code.
#[unsafe(no_mangle)]
pub extern "C" fn tsurmokan_least_cover(listing: &[u8], out: &mut [u8]) -> i64
    ensures { (result, out.new) ≡ answered (least_cover_reply listing.now) out.old }
{
    numbers::answer(Wanted::LeastCover, listing, out)
}

// The report of the listing that a KISS2 text becomes.
#[unsafe(no_mangle)]
pub extern "C" fn tsurmokan_kiss_report(text: &[u8], out: &mut [u8]) -> i64
    ensures { (result, out.new) ≡ answered (kiss_report_reply text.now) out.old }
{
    numbers::answer(Wanted::KissReport, text, out)
}

// Its cover.
#[unsafe(no_mangle)]
pub extern "C" fn tsurmokan_kiss_cover(text: &[u8], out: &mut [u8]) -> i64
    ensures { (result, out.new) ≡ answered (kiss_cover_reply text.now) out.old }
{
    numbers::answer(Wanted::KissCover, text, out)
}

// That listing.
#[unsafe(no_mangle)]
pub extern "C" fn tsurmokan_kiss_listing(text: &[u8], out: &mut [u8]) -> i64
    ensures { (result, out.new) ≡ answered (kiss_listing_reply text.now) out.old }
{
    numbers::answer(Wanted::KissListing, text, out)
}

// The names of its states.
#[unsafe(no_mangle)]
pub extern "C" fn tsurmokan_kiss_names(text: &[u8], out: &mut [u8]) -> i64
    ensures { (result, out.new) ≡ answered (kiss_names_reply text.now) out.old }
{
    numbers::answer_names(text, out)
}

// The whole lines of the report that fit, behind the bytes of it that the host has already: 0 where there is no more.
#[unsafe(no_mangle)]
pub extern "C" fn tsurmokan_report_part(listing: &[u8], from: usize, out: &mut [u8]) -> i64
    ensures { (result, out.new) ≡ answered_part (report_reply listing.now) from out.old }
{
    numbers::answer_part(Wanted::Report, listing, from, out)
}

// The same of the cover.
#[unsafe(no_mangle)]
pub extern "C" fn tsurmokan_cover_part(listing: &[u8], from: usize, out: &mut [u8]) -> i64
    ensures { (result, out.new) ≡ answered_part (cover_reply listing.now) from out.old }
{
    numbers::answer_part(Wanted::Cover, listing, from, out)
}
