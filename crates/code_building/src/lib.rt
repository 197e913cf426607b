// The code of a listing: bits until the width is reached or nothing is live.
#![tactic(auto)]

ghost use Rattle.std.specs.Prelude.{◌≡◌, []};
ghost use Rattle.bit_live.specs.Live.{live_in};
ghost use Rattle.code_encoding.specs.Encode.{encoded};
ghost use Rattle.code_building.specs.Build.{Begun, Asked, Done, encoded_for};

use rules::{Encoding, Listing, Refusal, Refused};

// What a run of bits came to: how many there are, how many requirements they leave live, and what building them took.
#[derive(Clone, Copy)]
struct Coded {
    width: usize,
    live: usize,
    passes: u64,
    looks: u64,
}

// Bits for n states until `most` are built, or nothing is live. Of the families those that are live stand in front after each bit.
fn build_bits(n: usize, most: usize, fs: &mut [u64], bits: &mut [u64]) -> Coded
    requires { Begun n most fs.old bits.old }
    ensures { Done n most (live_in n [] fs.old) bits.old result.width result.live result.passes result.looks bits.new }
{
    let mut width: usize = 0;
    let mut left = fs.len();
    let mut live = bit_live::count_live(n, &bits[..width], &fs[..left]);
    let mut passes: u64 = 0;
    let mut looks: u64 = 0;
    // The width counts the bits that are built; how many that will be shows only once nothing is live.
    while width < most && live != 0 {
        let a = bit_next::add_bit(n, &bits[..width], &mut fs[..left]);
        bits[width] = a.bit;
        width += 1;
        left = a.left;
        live = bit_live::count_live(n, &bits[..width], &fs[..left]);
        passes += a.passes;
        looks += a.looks;
    }
    Coded {
        width,
        live,
        passes,
        looks,
    }
}

// The code of n states and of the families in fs, of that width at most.
fn encode_families(n: usize, width: usize, fs: &mut [u64]) -> Result<Encoding, Refused>
    requires { Asked n width fs.old }
    ensures { result ≡ encoded_for n width (live_in n [] fs.old) }
{
    let mut bits = [0u64; rules::MOST_BITS];
    let asked = bit_live::count_live(n, &bits[..0], fs);
    let most = code_encoding::most_of(width);
    let c = build_bits(n, most, fs, &mut bits);
    if code_encoding::falls_short(width, c.live) {
        return code_encoding::uncoded_as(Refusal::TooWide);
    }
    Ok(Encoding {
        width: c.width,
        bits,
        asked,
        unmet: c.live,
        passes: c.passes,
        looks: c.looks,
    })
}

// The code of any listing; one that is not within 01's limits, as no reader gives, is refused 2.
pub fn encode(t: Listing) -> Result<Encoding, Refused>
    ensures { result ≡ encoded t }
{
    if !code_fair::is_fair(t) {
        return code_encoding::uncoded_as(Refusal::Limit);
    }
    let mut fs = [0u64; code_drawing::WORDS];
    let words = code_drawing::draw(t, &mut fs);
    encode_families(t.head.states, t.head.width, &mut fs[..words])
}
