// What is said of any bytes, as one signed number: the length of the text, or minus (number × 100,000 + line).
ghost use Rattle.std.specs.Prelude.{◌≡◌, ◌<◌, pos};
ghost use Rattle.rules.specs.Refusals.{minus};
ghost use Rattle.rules.specs.Answers.{answered};
ghost use Rattle.rules.specs.KissAnswers.{kiss_names_reply};
ghost use Rattle.rules.specs.Parts.{answered_part};
ghost use Rattle.host_replies.specs.Saying.{reply_to};
ghost use Rattle.tsurmokan.specs.Signed.{signed, Within};

use host_replies::plans::Wanted;
use rules::Refused;

// The length of a text.
fn length_of(n: usize) -> i64
    requires { n < 9223372036854775808 }
    ensures { result ≡ pos n }
{
    n as i64
}

// A refusal at a line. A listing has at most 65,536 bytes, so the line is at most 65,537, one past the last.
fn minus_of(why: Refused) -> i64
    requires { why.line < 100000 }
    ensures { result ≡ minus why.refusal why.line }
{
    let m = why.refusal.number_of() as u64 * 100000 + why.line as u64;
    -(m as i64)
}

// What was said, as the one signed number that a C host takes for it.
#[tactic(auto, unfolding(crate::specs::Signed::signed))]
pub fn number_of(said: Result<usize, Refused>) -> i64
    requires { Within said }
    ensures { result ≡ signed said }
{
    match said {
        Ok(n) => length_of(n),
        Err(why) => minus_of(why),
    }
}

// The answer to what is wanted.
pub fn answer(wanted: Wanted, listing: &[u8], out: &mut [u8]) -> i64
    ensures { (result, out.new) ≡ answered (reply_to wanted listing.now) out.old }
{
    let said = host_replies::say(wanted, listing, out);
    number_of(said)
}

// A part of it, from byte `from` on.
pub fn answer_part(wanted: Wanted, listing: &[u8], from: usize, out: &mut [u8]) -> i64
    ensures { (result, out.new) ≡ answered_part (reply_to wanted listing.now) from out.old }
{
    let said = host_replies::say_part(wanted, listing, from, out);
    number_of(said)
}

// The answer to the names of a KISS2 text.
pub fn answer_names(text: &[u8], out: &mut [u8]) -> i64
    ensures { (result, out.new) ≡ answered (kiss_names_reply text.now) out.old }
{
    let said = host_names::say_names(text, out);
    number_of(said)
}
