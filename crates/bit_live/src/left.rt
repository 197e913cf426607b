// What a bit leaves live of a family.
ghost use Rattle.std.specs.Prelude.{◌≡◌, ◌+◌, ◌-◌, ◌<◌, ◌≤◌, length};
ghost use Rattle.sets.specs.Sets.{size};
ghost use Rattle.bit_live.specs.Left.{left_by, stays_by, words_behind, moved_family};

// Of the states outside, those that are not right in a half that is met.
fn left_by(x: u64, y: u64, o: u64, b: u64) -> u64
    ensures { result ≡ left_by (size x) (size y) o b }
{
    match (x, y) {
        (0, 0) => 0,
        (0, _) => o ^ (o & b),
        (_, 0) => o & b,
        _ => o,
    }
}

// Whether some requirement is live, where x and y must change, and these states outside are left.
fn stays_by(x: u64, y: u64, out: u64, left: u64) -> bool
    ensures { result ≡ stays_by (size x) (size y) out left }
{
    if out == 0 {
        x != 0 && y != 0
    } else {
        left != 0
    }
}

// The family from place i on, with j words of live ones in front of it: what is left of it moves to place j; the answer is how many words stand there then.
pub fn sift_family(fs: &mut [u64], i: usize, j: usize, b: u64) -> usize
    requires { (2 < length fs.old - i) × (j ≤ i) }
    ensures { (result ≡ words_behind b i j fs.old) × (fs.new ≡ moved_family b i j fs.old) }
{
    let all = fs[i];
    let flip = fs[i + 1];
    let out = fs[i + 2];
    let x = move_halves::side_of(all, flip, b);
    let y = all ^ x;
    let left = left_by(x, y, families::without_of(out, all), b);
    if stays_by(x, y, out, left) {
        families::put(fs, j, all, flip, left);
        return j + 3;
    }
    j
}
