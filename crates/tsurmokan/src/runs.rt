// A recorded run for a C host: the bytes of a listing and of a run and an output buffer in, and one signed number out, as of a listing alone.
ghost use Rattle.std.specs.Prelude.{◌≡◌};
ghost use Rattle.rules.specs.Answers.{answered};
ghost use Rattle.rules.specs.Parts.{answered_part};
ghost use Rattle.rules.specs.Replay.{replay_reply};

use super::numbers::number_of;

// The replay of the run.
#[unsafe(no_mangle)]
pub extern "C" fn tsurmokan_replay(listing: &[u8], run: &[u8], out: &mut [u8]) -> i64
    ensures { (result, out.new) ≡ answered (replay_reply listing.now run.now) out.old }
{
    let said = host_replay::say(listing, run, out);
    number_of(said)
}

// The whole lines of the replay that fit, behind the bytes of it that the host has already.
#[unsafe(no_mangle)]
pub extern "C" fn tsurmokan_replay_part(
    listing: &[u8],
    run: &[u8],
    from: usize,
    out: &mut [u8],
) -> i64
    ensures { (result, out.new) ≡ answered_part (replay_reply listing.now run.now) from out.old }
{
    let said = host_replay::say_part(listing, run, from, out);
    number_of(said)
}
