// The trial record for a C host, which holds it: started, moved, and its gains and looks shown.
ghost use Rattle.std.specs.Prelude.{◌≡◌};
ghost use Rattle.rules.specs.Cases.{verdict_numbers};
ghost use Rattle.move_trial.specs.Record.{start_of, move_of, gain_of};
ghost use Rattle.tsurmokan.specs.Started.{numbered};

// What a start answers: 0 or the number of its refusal, and the record, the empty one where it is refused. The refusal is a number for C, which has no `Result`.
#[repr(C)]
#[derive(Clone, Copy)]
pub struct Started {
    pub refusal: u32,
    pub trial: move_trial::Trial,
}

// An answer with its verdict as a number.
#[tactic(auto, unfolding(crate::specs::Started::numbered))]
fn numbered_of(a: move_trial::Answer) -> Started
    ensures { result ≡ numbered a }
{
    Started {
        refusal: move_trial::number_of(a.verdict),
        trial: a.trial,
    }
}

// A record of n states, at a bit, of requirements given as first and second blocks.
#[unsafe(no_mangle)]
pub extern "C" fn tsurmokan_start(n: usize, bit: u64, firsts: &[u64], seconds: &[u64]) -> Started
    ensures { result ≡ numbered (start_of n bit firsts.now seconds.now) }
{
    numbered_of(move_trial::Trial::start(n, bit, firsts, seconds))
}

// The move of s on a record that the caller goes on holding: 0, or 11 where the move is refused, and the record then stays as it is.
#[unsafe(no_mangle)]
pub extern "C" fn tsurmokan_move(t: &mut move_trial::Trial, s: rules::StateNumber) -> u32
    ensures { (t.new ≡ (move_of t.old s).trial) × (result ≡ (verdict_numbers (move_of t.old s).verdict).refusal) }
{
    let a = (*t).make_move(s);
    *t = a.trial;
    move_trial::number_of(a.verdict)
}

// The gain of state s, moved or not; a number that is no state's gains nothing.
#[unsafe(no_mangle)]
pub extern "C" fn tsurmokan_gain(t: move_trial::Trial, s: rules::StateNumber) -> i64
    ensures { result ≡ gain_of t s }
{
    t.gain(s)
}

// The looks so far.
#[unsafe(no_mangle)]
pub extern "C" fn tsurmokan_looks(t: move_trial::Trial) -> u64
    ensures { result ≡ t.looks }
{
    t.looks()
}
