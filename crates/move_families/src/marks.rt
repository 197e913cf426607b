// The move over a run of families: those that it can touch are marked in one number, and they alone are visited.
ghost use Rattle.std.specs.Prelude.{◌≡◌, ◌/◌, ◌%◌, ◌^◌, ◌≤◌, length};
ghost use Rattle.move_families.specs.Swayed.{swayed_all, looks_all};
ghost use Rattle.move_families.specs.Marks.{marks_from};

// The words of a run: 64 families, a digit of the marks for each.
pub const RUN: usize = 192;

// The marks of a run's families, the first family's the lowest digit. From the last family to the first, so that a turn doubles the number.
fn marks_of(run: &[u64], b: u64, s: usize) -> u64
    requires { length run.now ≤ 192 }
    ensures { result ≡ marks_from (length run.now / 3) 0 run.now b s }
{
    let mut word: u64 = 0;
    let (families, _) = run.as_chunks::<3>();
    for &[all, flip, out] in families.iter().rev() {
        word = 2 * word + move_halves::mark_of(all, flip, out, b, s);
    }
    word
}

// The move of s at the bit b over a run of families.
pub fn sway_run(run: &[u64], b: u64, s: usize, t: &mut [u32]) -> usize
    requires { length run.now ≤ 192 }
    ensures { (result ≡ looks_all run.now b s % 2 ^ 64) × (t.new ≡ swayed_all run.now b s t.old) }
{
    let (families, _) = run.as_chunks::<3>();
    let mut marks = marks_of(run, b, s);
    let mut looks: usize = 0;
    while marks != 0 {
        let [all, flip, out] = families[sets::lowest(marks)];
        looks = looks.wrapping_add(move_halves::move_family(all, flip, out, b, s, t));
        marks = sets::without_lowest(marks);
    }
    looks
}
