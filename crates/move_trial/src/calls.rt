// Which calls a trial record takes: whether a record can start, and whether a state can move.
ghost use Rattle.std.specs.Prelude.{◌≡◌, ◌&&◌, ◌==◌, bit_and};
ghost use Rattle.rules.specs.Trial.{within, paired, all_sound, startable};
ghost use Rattle.move_trial.specs.Movable.{movable};

// Whether m has no mask bit at n or above.
fn within_of(n: usize, m: u64) -> bool
    ensures { result ≡ within n m }
{
    64 <= n || m < (1 << n)
}

// Whether two blocks are within n states and do not overlap.
fn sound_of(n: usize, f: u64, g: u64) -> bool
    ensures { result ≡ (within n f && within n g && bit_and f g == 0) }
{
    within_of(n, f) && within_of(n, g) && f & g == 0
}

// Whether the blocks of two lists are all so, of each pair as far as both lists go.
fn all_sound(n: usize, firsts: &[u64], seconds: &[u64]) -> bool
    ensures { result ≡ all_sound n (paired firsts.now seconds.now) }
{
    for (&f, &g) in firsts.iter().zip(seconds) {
        if !sound_of(n, f, g) {
            return false;
        }
    }
    true
}

// Whether a record can start so.
#[tactic(auto, unfolding(rules::specs::Trial::startable))]
pub fn can_start(n: usize, bit: u64, firsts: &[u64], seconds: &[u64]) -> bool
    ensures { result ≡ startable n bit firsts.now seconds.now }
{
    1 <= n
        && n <= rules::MOST_STATES
        && firsts.len() == seconds.len()
        && firsts.len() <= rules::MOST_TRIAL
        && within_of(n, bit)
        && all_sound(n, firsts, seconds)
}

// Whether state s can move in a record of so many states and requirements, behind the moves of others.
#[tactic(auto, unfolding(crate::specs::Movable::movable))]
pub fn can_move(states: usize, count: usize, moved: u64, s: usize) -> bool
    ensures { result ≡ movable states count moved s }
{
    states <= rules::MOST_STATES
        && count <= rules::MOST_TRIAL
        && s < states
        && !sets::member(moved, s)
}
