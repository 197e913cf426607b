// Codes and a cover from elsewhere for a C host: the bytes of a listing, of codes and of a cover and an output buffer in, and one signed number out, as of a
// listing alone.
ghost use Rattle.std.specs.Prelude.{◌≡◌};
ghost use Rattle.rules.specs.Answers.{answered};
ghost use Rattle.rules.specs.Check.{check_reply};

use super::numbers::number_of;

// `OK`, or what is wrong first.
#[unsafe(no_mangle)]
pub extern "C" fn tsurmokan_check(listing: &[u8], codes: &[u8], cover: &[u8], out: &mut [u8]) -> i64
    ensures { (result, out.new) ≡ answered (check_reply listing.now codes.now cover.now) out.old }
{
    let said = host_check::say(listing, codes, cover, out);
    number_of(said)
}
