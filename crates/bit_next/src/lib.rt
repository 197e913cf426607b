// The next bit of a code: it is built for the live requirements, and they are sifted by it.
#![tactic(auto)]

ghost use Rattle.bit_next.specs.NextBit.{AddedBit};

// What a new bit is, how many words the families take that it leaves live, and what building it took.
#[derive(Clone, Copy)]
pub struct Added {
    pub bit: u64,
    pub left: usize,
    pub passes: u64,
    pub looks: u64,
}

// The next bit behind `bits`, for the pairs that they leave live and for the families of fs, of which those that the new bit leaves move to the front.
pub fn add_bit(n: usize, bits: &[u64], fs: &mut [u64]) -> Added
    ensures { AddedBit n bits.now fs.old result.bit result.left result.passes result.looks fs.new }
{
    let start = bit_live::start_live(n, bits, fs);
    let built = bit_passes::build_bit(n, bits, fs, start);
    let b = bit_choice::complement(n, built.bit);
    let left = bit_live::sift_families(fs, b);
    Added {
        bit: b,
        left,
        passes: built.passes,
        looks: built.looks,
    }
}
