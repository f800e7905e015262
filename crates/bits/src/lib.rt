// One bit of a 64-bit word: a word is a set of the numbers 0 to 63.
#![tactic(auto)]

ghost use Rattle.std.specs.Prelude.{◌≡◌};
ghost use Rattle.bits.specs.Bit.{bit, with_bit, without_bit, Meets, below, all_below, lowest};

// Whether bit t of w is set. No bit from 64 on is.
pub fn has(w: u64, t: u8) -> bool
    ensures { result ≡ bit w t }
{
    t < 64 && (w >> t) % 2 == 1
}

// w with bit t set; w itself where t is 64 or more.
#[tactic(auto, using(crate::proofs::Laws::with_in, crate::proofs::Laws::with_out))]
pub fn with(w: u64, t: u8) -> u64
    ensures { result ≡ with_bit w t }
{
    if t < 64 { w | (1 << t) } else { w }
}

// w with bit t cleared.
pub fn without(w: u64, t: u8) -> u64
    ensures { result ≡ without_bit w t }
{
    if t < 64 { w & !(1 << t) } else { w }
}

// Whether some bit is set in both. A test of one bit in many words makes the word of that bit once.
pub fn meet(a: u64, b: u64) -> bool
    ensures { Meets a b result }
{
    a & b != 0
}

// Whether w has no bit at n or above.
pub fn fits(w: u64, n: u64) -> bool
    ensures { result ≡ below w n }
{
    64 <= n || w < (1 << n)
}

// Whether none of the words has a bit at n or above. One test of their bits together is quicker than one for each.
pub fn all_fit(words: &[u64], n: u64) -> bool
    ensures { result ≡ all_below words.now n }
{
    fits(words.iter().fold(0, |together, word| together | word), n)
}

// The bits below n: all 64 where n is 64 or more.
pub fn ones(n: u64) -> u64
    ensures { result ≡ lowest n }
{
    if n < 64 { (1 << n) - 1 } else { u64::MAX }
}
