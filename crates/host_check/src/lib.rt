// What is said of a listing, and of codes and a cover from elsewhere: one line, or a refusal with its line.
#![tactic(auto)]

ghost use Rattle.std.specs.Prelude.{◌≡◌, ◌≤◌, length, Some};
ghost use Rattle.rules.specs.Report.{unmet_line};
ghost use Rattle.rules.specs.Answers.{says, printed};
ghost use Rattle.rules.specs.Check.{fault_line, check_reply};
ghost use Rattle.judge_check.specs.Checked.{line_of, reply_of};
ghost use Rattle.write_pen.specs.Pen.{Wrote};
ghost use Rattle.host_replies.specs.Saying.{saying};
ghost use Rattle.host_check.specs.Begins.{begun_for};

use host_replies::plans::Form;
use judge_check::{Begun, Checked};
use rules::{Fault, Refusal, Refused, RequirementNumber};

// `UN number`
fn put_unmet(out: &mut [u8], number: RequirementNumber) -> usize
    ensures { Wrote out.old 0 (unmet_line number) result out.new }
{
    let p = write_pen::put_bytes(out, 0, b"UN ");
    write_pen::put_field(out, p, number.0 as u64, b'\n')
}

// `AT state input`
fn put_at(out: &mut [u8], fault: Fault) -> usize
    ensures { Wrote out.old 0 (fault_line (Some fault)) result out.new }
{
    let p = write_pen::put_bytes(out, 0, b"AT ");
    let q = write_pen::put_field(out, p, fault.state.0 as u64, b' ');
    write_pen::put_field(out, q, fault.input as u64, b'\n')
}

// Where the cover does not agree, or `OK`.
#[tactic(auto, unfolding(rules::specs::Check::fault_line))]
fn put_fault(out: &mut [u8], fault: Option<Fault>) -> usize
    ensures { Wrote out.old 0 (fault_line fault) result out.new }
{
    match fault {
        Some(fault) => put_at(out, fault),
        None => write_pen::put_bytes(out, 0, b"OK\n"),
    }
}

// The line of what was found.
#[tactic(auto, unfolding(judge_check::specs::Checked::line_of))]
fn put_line(out: &mut [u8], checked: Checked) -> usize
    ensures { Wrote out.old 0 (line_of checked) result out.new }
{
    match checked {
        Checked::Unmet(number) => put_unmet(out, number),
        Checked::Judged(fault) => put_fault(out, fault),
    }
}

// What was found or refused, as a program prints it.
#[tactic(auto, unfolding(judge_check::specs::Checked::reply_of, rules::specs::Answers::printed))]
pub fn put_checked(out: &mut [u8], found: Result<Checked, Refused>) -> usize
    ensures { Wrote out.old 0 (printed (reply_of found)) result out.new }
{
    match found {
        Ok(checked) => put_line(out, checked),
        Err(why) => write_refusal::put_refusal(out, why.refusal, why.line),
    }
}

// A line, where it fits: it is measured on a buffer without room.
fn say_line(checked: Checked, out: &mut [u8]) -> Result<usize, Refused>
    requires { length (line_of checked) ≤ 12 }
    ensures { (result, out.new) ≡ saying (says (line_of checked)) out.old }
{
    let mut none = [0u8; 1];
    let length = put_line(&mut none[..0], checked);
    if out.len() < length {
        return Err(Refusal::NoRoom.at(0));
    }
    Ok(put_line(out, checked))
}

// What is found of any bytes of a listing, of codes and of a cover.
fn check(listing: &[u8], codes: &[u8], cover: &[u8]) -> Result<Checked, Refused>
    ensures { reply_of result ≡ check_reply listing.now codes.now cover.now }
{
    let got = host_replies::read_as(Form::Listing, listing);
    judge_check::check(got, codes, cover)
}

// What is said of any bytes of a listing, of codes and of a cover: how many bytes the line has, or the refusal and its line.
pub fn say(listing: &[u8], codes: &[u8], cover: &[u8], out: &mut [u8]) -> Result<usize, Refused>
    ensures { (result, out.new) ≡ saying (check_reply listing.now codes.now cover.now) out.old }
{
    let checked = check(listing, codes, cover)?;
    say_line(checked, out)
}

// The first bytes of a listing, and codes; where more bytes follow than a listing can have, it is too long.
#[tactic(auto, using(crate::proofs::Lines::as_listing), unfolding(crate::specs::Begins::begun_for, judge_check::specs::Checked::begun))]
pub fn begin(listing: &[u8], more: bool, codes: &[u8]) -> Result<Begun, Refused>
    ensures { result ≡ begun_for listing.now more codes.now }
{
    if more {
        return Err(Refusal::Limit.at(0));
    }
    let got = host_replies::read_as(Form::Listing, listing);
    judge_check::begin(got, codes)
}
