// What is said of the names of a KISS2 text's states: the whole text, or a refusal with its line.
#![tactic(auto)]

ghost use Rattle.std.specs.Prelude.{◌≡◌, cond, ◌≤◌, length};
ghost use Rattle.rules.specs.Answers.{says, refuses, printed};
ghost use Rattle.rules.specs.NamesText.{names_text};
ghost use Rattle.rules.specs.KissAnswers.{kiss_names_reply};
ghost use Rattle.rules.specs.declared.Refusal.TheVariants.{Limit};
ghost use Rattle.read_names.specs.Names.{names_in};
ghost use Rattle.write_pen.specs.Pen.{Wrote};
ghost use Rattle.host_replies.specs.Saying.{saying};

use read_names::Names;
use rules::{Refusal, Refused};

// The whole text, where it fits: it is measured on a buffer without room.
fn say_whole(bytes: &[u8], names: Names, out: &mut [u8]) -> Result<usize, Refused>
    requires { length (names_text (names_in bytes.now names)) ≤ 2435 }
    ensures { (result, out.new) ≡ saying (says (names_text (names_in bytes.now names))) out.old }
{
    let mut none = [0u8; 1];
    let length = write_names::put_names(&mut none[..0], bytes, names);
    if out.len() < length {
        return Err(Refusal::NoRoom.at(0));
    }
    Ok(write_names::put_names(out, bytes, names))
}

// What is said of the names in any bytes.
pub fn say_names(bytes: &[u8], out: &mut [u8]) -> Result<usize, Refused>
    ensures { (result, out.new) ≡ saying (kiss_names_reply bytes.now) out.old }
{
    let names = read_kiss::read_named(bytes)?;
    say_whole(bytes, names, out)
}

// What a program prints of them, from the start of the buffer on; where more bytes follow than a text can have, it is too long.
pub fn print_names(out: &mut [u8], bytes: &[u8], more: bool) -> usize
    ensures { Wrote out.old 0 (printed (cond more (refuses Limit 0) (kiss_names_reply bytes.now))) result out.new }
{
    if more {
        return write_refusal::put_refusal(out, Refusal::Limit, 0);
    }
    match read_kiss::read_named(bytes) {
        Err(why) => write_refusal::put_refusal(out, why.refusal, why.line),
        Ok(names) => write_names::put_names(out, bytes, names),
    }
}
