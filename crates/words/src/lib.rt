// Operation words: what a word of a trace says, and what refuses an operation.
#![tactic(auto)]

ghost use Rattle.std.specs.Prelude.{◌≡◌};
ghost use Rattle.answers.specs.Numbers.{number_of};
ghost use Rattle.words.specs.Words.{operation_of, stray_in, outside, framed, deeper, barred, decoded, decoding, word_at};

use answers::Refusal;

// The most frames that a stack has.
pub const DEPTH_MOST: u64 = 63;

// One operation, with the signer or the target that it uses.
#[derive(Clone, Copy, Debug, PartialEq, Eq)]
pub enum Operation {
    Call(u8),
    Return,
    Enable(u8),
    Disable(u8),
    Revert(u8),
    Check(u8),
}

// An operation and the index of its word in the trace.
#[derive(Clone, Copy, Debug, PartialEq, Eq)]
pub struct Word {
    pub op: Operation,
    pub index: usize,
}

// The operation of a word. Where its number is 6 or 7, which no caller asks, it is check: a `TryFrom` would ask again what `decode` has
// asked before.
fn named(word: u16) -> Operation
    ensures { result ≡ operation_of word }
{
    let signer = (word / 256 % 32) as u8;
    let target = (word / 4 % 64) as u8;
    let number = word / 8192;
    match number {
        0 => Operation::Call(signer),
        1 => Operation::Return,
        2 => Operation::Enable(target),
        3 => Operation::Disable(target),
        4 => Operation::Revert(target),
        _ => Operation::Check(target),
    }
}

// Whether a spare bit is set, or a bit of a field that the operation does not use. By the operation's number: of a word that is refused
// here no `Operation` is made.
fn stray(word: u16) -> bool
    ensures { result ≡ stray_in word }
{
    let number = word / 8192;
    let signer = word / 256 % 32;
    let target = word / 4 % 64;
    if word % 4 != 0 {
        return true;
    }
    if number == 0 {
        return target != 0;
    }
    if signer != 0 {
        return true;
    }
    if number == 1 {
        return target != 0;
    }
    false
}

// 5 for a signer outside a policy of so many signers and targets, 6 for a target.
pub fn outside(signers: u64, targets: u64, op: Operation) -> Result<(), Refusal>
    ensures { number_of result ≡ outside signers targets op }
{
    match op {
        Operation::Call(signer) => answers::unless((signer as u64) < signers, Refusal::NoSigner),
        Operation::Return => Ok(()),
        Operation::Enable(target)
        | Operation::Disable(target)
        | Operation::Revert(target)
        | Operation::Check(target) => {
            answers::unless((target as u64) < targets, Refusal::NoTarget)
        }
    }
}

// The same of a word's operation. By the word's fields it is quicker than by the operation, whose case would be asked again: with 7
// and 8 asked so too, a run took 6 to 25 % more instructions.
fn outside_word(signers: u64, targets: u64, word: u16) -> Result<(), Refusal>
    ensures { number_of result ≡ outside signers targets (operation_of word) }
{
    let number = word / 8192;
    if number == 0 {
        return answers::unless(((word / 256 % 32) as u64) < signers, Refusal::NoSigner);
    }
    if number == 1 {
        return Ok(());
    }
    answers::unless(((word / 4 % 64) as u64) < targets, Refusal::NoTarget)
}

// 7 where there is no frame.
pub fn framed(depth: u64) -> Result<(), Refusal>
    ensures { number_of result ≡ framed depth }
{
    answers::unless(depth != 0, Refusal::NoFrame)
}

// 8 where there is no room for a frame more.
pub fn deeper(depth: u64) -> Result<(), Refusal>
    ensures { number_of result ≡ deeper depth }
{
    answers::unless(depth < DEPTH_MOST, Refusal::TooDeep)
}

// 7 where there is no frame and the operation is not call, 8 for a call at depth 63.
pub fn barred(depth: u64, op: Operation) -> Result<(), Refusal>
    ensures { number_of result ≡ barred depth op }
{
    match op {
        Operation::Call(_) => deeper(depth),
        _ => framed(depth),
    }
}

// A word of a trace, under a policy of so many signers and targets: 4, 3, 5 or 6, else its operation with its index.
pub fn decode(signers: u64, targets: u64, word: u16, index: usize) -> Result<Word, Refusal>
    ensures { decoding result ≡ decoded signers targets word index }
{
    if 5 < word / 8192 {
        return Err(Refusal::Unknown);
    }
    if stray(word) {
        return Err(Refusal::BitSet);
    }
    outside_word(signers, targets, word)?;
    let op = named(word);
    Ok(Word { op, index })
}

// The word at an index of a trace, its first byte the high one: 0 past the last whole word. A sum, which the compiler takes apart into the
// word's fields: by `from_be_bytes` it turns two bytes round at each word, and a short run takes a quarter more.
pub fn word_at(trace: &[u8], index: usize) -> u16
    ensures { result ≡ word_at trace.now index }
{
    if trace.len() / 2 <= index {
        return 0;
    }
    256 * u16::from(trace[2 * index]) + u16::from(trace[2 * index + 1])
}
