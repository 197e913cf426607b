// What a program prints of a listing, in parts: the text, or `NO number line`.
#![tactic(auto)]

ghost use Rattle.std.specs.Prelude.{◌≡◌, ◌≤◌, length};
ghost use Rattle.host_replies.specs.Ready.{reply_of};
ghost use Rattle.host_prints.specs.Printing.{ready_for, printing};

use host_replies::Ready;
use host_replies::plans::Wanted;
use rules::{Refusal, Refused};

// The first bytes of a listing, read and coded for what is wanted; where more bytes follow than a listing can have, it is too long.
pub fn prepare(wanted: Wanted, listing: &[u8], more: bool) -> Result<Ready, Refused>
    ensures { result ≡ ready_for wanted listing.now more }
{
    if more {
        return Err(Refusal::Limit.at(0));
    }
    host_replies::prepare(wanted, listing)
}

// The whole lines that fit, from byte `from` of what is printed on: how many bytes they are, none at the end.
pub fn print(ready: Result<Ready, Refused>, from: usize, out: &mut [u8]) -> usize
    ensures { ((result, out.new) ≡ printing (reply_of ready) from out.old) × (result ≤ length out.new) }
{
    let begun = write_parts::begin(from);
    match ready {
        Err(why) => {
            let told = write_refusal::add_refusal(out, begun, why.refusal, why.line);
            told.given
        }
        Ok(_) => {
            let written = host_replies::add_text(ready, begun, out);
            written.given
        }
    }
}
