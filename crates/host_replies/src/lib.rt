// What is said of any bytes: the report, the cover or what each width buys, the report or the cover of the least code, or the report, the cover or the listing of
// a KISS2 text, whole or in parts, or a refusal with its line.
#![tactic(auto)]

pub mod plans;

ghost use Rattle.std.specs.Prelude.{◌≡◌, ◌≤◌, ltb, length};
ghost use Rattle.rules.specs.Answers.{says};
ghost use Rattle.rules.specs.Kiss.{kiss_reading};
ghost use Rattle.rules.specs.Listing.{judged};
ghost use Rattle.rules.specs.Report.{joined_lines};
ghost use Rattle.write_parts.specs.Parts.{added_all};
ghost use Rattle.write_texts.specs.Texts.{text_lines};
ghost use Rattle.host_replies.specs.Plans.{reading_as, encoded_by};
ghost use Rattle.host_replies.specs.Ready.{prepared, widened, ready, ready_with, lines_of, reply_of, longest};
ghost use Rattle.host_replies.specs.Saying.{saying, saying_part, reply_to};

use plans::{Form, Plan, Wanted, Way};
use rules::{Encoding, Listing, Refusal, Refused};
use write_parts::Part;
use write_texts::Text;

// So many bytes of room are always enough.
pub const ROOM: usize = 124799;

// A listing with its code, from which a text can be written, whole or in parts, as often as one likes.
#[derive(Clone, Copy)]
pub struct Ready {
    pub text: Text,
    pub listing: Listing,
    pub encoding: Encoding,
}

// What is made of a listing that lies elsewhere: which text, and the code that it is written in.
#[derive(Clone, Copy)]
struct Coded {
    text: Text,
    encoding: Encoding,
}

// A KISS2 text, read into a listing that is lent. It keeps a frame of its own, which is left before the next step: inlined, its drafts would stand in the frame of
// every call on a listing.
#[inline(never)]
fn read_kiss_lent(bytes: &[u8], t: &mut Listing) -> Result<(), Refused>
    ensures { judged result t.new ≡ kiss_reading bytes.now }
{
    *t = read_kiss::read_kiss(bytes)?;
    Ok(())
}

// Any bytes, read as a text of that form into a listing that is lent. Each reader is called in one place.
#[inline(never)]
fn read_lent(form: Form, bytes: &[u8], t: &mut Listing) -> Result<(), Refused>
    ensures { judged result t.new ≡ reading_as form bytes.now }
{
    if plans::is_kiss(form) {
        return read_kiss_lent(bytes, t);
    }
    read_listing::read_lent(plans::is_small(form), bytes, t)
}

// Any bytes, read as a text of that form: the listing, or the refusal and its line.
pub fn read_as(form: Form, bytes: &[u8]) -> Result<Listing, Refused>
    ensures { result ≡ reading_as form bytes.now }
{
    let mut t = read_answers::blank_listing();
    read_lent(form, bytes, &mut t)?;
    Ok(t)
}

// The code of a listing, in that way.
fn encode_by(way: Way, t: Listing) -> Result<Encoding, Refused>
    ensures { result ≡ encoded_by way t }
{
    match way {
        Way::Built => code_building::encode(t),
        Way::Least => code_least::encode_least(t),
        Way::Uncoded => Ok(code_encoding::no_code()),
    }
}

// Any bytes, read into a listing that is lent, in the width that its text asks for.
fn read_wanted(plan: Plan, bytes: &[u8], t: &mut Listing) -> Result<(), Refused>
    ensures { judged result t.new ≡ widened plan.text (reading_as plan.form bytes.now) }
{
    read_lent(plan.form, bytes, t)?;
    let width = plans::width_for(plan.text, t.head.width);
    t.head.width = width;
    Ok(())
}

// A listing, coded once by a plan: the encoder's refusal comes before that of a cover, 9. What that needs has a frame of its own, which is left before a byte is
// written.
#[inline(never)]
fn code_read(plan: Plan, t: Listing) -> Result<Coded, Refused>
    ensures { prepared t result ≡ ready_with plan.text t (encoded_by plan.way t) }
{
    let text = plan.text;
    let encoding = encode_by(plan.way, t)?;
    write_texts::verdict_of(text, t, encoding)?;
    Ok(Coded { text, encoding })
}

// Any bytes, read and coded once for what is wanted: the reader's refusal comes first.
pub fn prepare(wanted: Wanted, bytes: &[u8]) -> Result<Ready, Refused>
    ensures { result ≡ ready wanted bytes.now }
{
    let plan = plans::plan_of(wanted);
    let mut read = read_answers::blank_listing();
    read_wanted(plan, bytes, &mut read)?;
    let t = read;
    let coded = code_read(plan, t)?;
    Ok(Ready {
        text: coded.text,
        listing: t,
        encoding: coded.encoding,
    })
}

// The lines of the text, added to a part; where it is refused there are none.
pub fn add_text(ready: Result<Ready, Refused>, part: Part, out: &mut [u8]) -> Part
    ensures { (result, out.new) ≡ added_all (lines_of ready) (part, out.old) }
{
    let Ok(r) = ready else {
        return part;
    };
    write_texts::add_lines(r.text, r.listing, r.encoding, part, out)
}

// Whether a text is longer than so many bytes. Where that is not plain, it is measured: with those passed over, and no room, a line is left.
fn is_longer(coded: Coded, t: Listing, len: usize) -> bool
    requires { length (joined_lines (text_lines coded.text t coded.encoding)) ≤ longest }
    ensures { result ≡ ltb len (length (joined_lines (text_lines coded.text t coded.encoding))) }
{
    if ROOM <= len {
        return false;
    }
    let mut none = [0u8; 1];
    let measured = write_texts::add_lines(
        coded.text,
        t,
        coded.encoding,
        write_parts::begin(len),
        &mut none[..0],
    );
    measured.full
}

// A text, whole, or 10 where it does not fit.
fn say_whole(coded: Coded, t: Listing, out: &mut [u8]) -> Result<usize, Refused>
    requires { length (joined_lines (text_lines coded.text t coded.encoding)) ≤ longest }
    ensures { (result, out.new) ≡ saying (says (joined_lines (text_lines coded.text t coded.encoding))) out.old }
{
    if is_longer(coded, t, out.len()) {
        return Err(Refusal::NoRoom.at(0));
    }
    let written = write_texts::add_lines(coded.text, t, coded.encoding, write_parts::begin(0), out);
    Ok(written.given)
}

// The whole lines of a text that fit, from byte `from` on; none where there is no more, and 10 where the next does not fit.
fn say_piece(coded: Coded, t: Listing, from: usize, out: &mut [u8]) -> Result<usize, Refused>
    ensures { (result, out.new) ≡ saying_part (says (joined_lines (text_lines coded.text t coded.encoding))) from out.old }
{
    let written = write_texts::add_lines(
        coded.text,
        t,
        coded.encoding,
        write_parts::begin(from),
        out,
    );
    if written.given == 0 && written.full {
        return Err(Refusal::NoRoom.at(0));
    }
    Ok(written.given)
}

// What is said of any bytes, in a lent buffer: how many bytes the text has, or the refusal and its line. Reading and coding have frames of their own, which are left
// before the next step; what measures and writes has none, for it would have a copy there of the listing that it hands on. What is read is held but once: it does
// not change any more once `t` has it, so that no call from here makes a copy of it.
pub fn say(wanted: Wanted, bytes: &[u8], out: &mut [u8]) -> Result<usize, Refused>
    ensures { (result, out.new) ≡ saying (reply_to wanted bytes.now) out.old }
{
    let plan = plans::plan_of(wanted);
    let mut read = read_answers::blank_listing();
    read_wanted(plan, bytes, &mut read)?;
    let t = read;
    let coded = code_read(plan, t)?;
    say_whole(coded, t, out)
}

// The whole lines of what is ready that fit, from byte `from` on; none where there is no more, and 10 where the next does not fit.
pub fn say_from(
    ready: Result<Ready, Refused>,
    from: usize,
    out: &mut [u8],
) -> Result<usize, Refused>
    ensures { (result, out.new) ≡ saying_part (reply_of ready) from out.old }
{
    let r = ready?;
    let coded = Coded {
        text: r.text,
        encoding: r.encoding,
    };
    say_piece(coded, r.listing, from, out)
}

// A part of what is said of any bytes; it holds what is read as `say` does.
pub fn say_part(wanted: Wanted, bytes: &[u8], from: usize, out: &mut [u8]) -> Result<usize, Refused>
    ensures { (result, out.new) ≡ saying_part (reply_to wanted bytes.now) from out.old }
{
    let plan = plans::plan_of(wanted);
    let mut read = read_answers::blank_listing();
    read_wanted(plan, bytes, &mut read)?;
    let t = read;
    let coded = code_read(plan, t)?;
    say_piece(coded, t, from, out)
}
