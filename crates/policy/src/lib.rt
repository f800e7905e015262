// The policy value: what it says, whether it is valid, and its one byte form.
#![tactic(auto)]

ghost use Rattle.std.specs.Prelude.{◌≡◌, true, ◌+◌, ◌-◌, ◌*◌, ◌≤◌, length, get_or, take, drop, fold, bit_or};
ghost use Rattle.std.proofs.lemmas.List.Edits.{sets};
ghost use Rattle.bits.specs.Bit.{below};
ghost use Rattle.beliefs.specs.Lists.{all, each};
ghost use Rattle.answers.specs.Numbers.{number_of};
ghost use Rattle.answers.specs.Account.{Reports, report_of};
ghost use Rattle.words.specs.Words.{decoding};
ghost use Rattle.beliefs.specs.Policy.{signers, targets, row, within, row_fits, valid, refusal, refusal_in, refusal_of, reading};
ghost use Rattle.beliefs.specs.Policy.{width, size, mirrored, row_of, row_bytes, rows_of, rows_bytes, header, head_signers, head_targets, headed};
ghost use Rattle.beliefs.specs.Policy.{read_number, value_read, bytes_written, writing};
ghost use Rattle.beliefs.specs.Stack.{full, start_marks};
ghost use Rattle.policy.specs.Read.{PolicyRead, cut_at};

use answers::{Refusal, Report};
use words::{Operation, Word};

// A policy's words: start, S, N, and the rows of 32 signers. An array with functions beside it, and no struct with methods: C lends it
// as 35 words, and of a struct that crosses to C each clause would have to name the field.
pub const WORDS: usize = 35;

pub type Policy = [u64; WORDS];

// Whether the start is full.
pub fn is_full(policy: &Policy) -> bool
    ensures { result ≡ full policy.now }
{
    policy[0] == 1
}

// What a start hands a bottom frame: a bit for each of the N targets under a full start, nothing under an empty one.
pub fn start_marks(policy: &Policy) -> u64
    ensures { result ≡ start_marks policy.now }
{
    if is_full(policy) {
        bits::ones(targets(policy))
    } else {
        0
    }
}

// S.
pub fn signers(policy: &Policy) -> u64
    ensures { result ≡ signers policy.now }
{
    policy[1]
}

// N.
pub fn targets(policy: &Policy) -> u64
    ensures { result ≡ targets policy.now }
{
    policy[2]
}

// The targets that a signer is permitted, a bit each: none for a signer over 31.
#[tactic(auto, using(crate::proofs::Fits::row_found))]
pub fn row(policy: &Policy, signer: u64) -> u64
    ensures { result ≡ row policy.now signer }
{
    policy[3..].get(signer as usize).copied().unwrap_or(0)
}

// The bits of the rows from one up to another, together: two tests of many rows are quicker than one for each. By number,
// since as parts of a slice, of whose length the compiler knows no bound, the test of five rows took 134 instructions and not 108.
fn rows_together(policy: &Policy, from: usize, to: usize) -> u64
    requires { (from ≤ to) × (to ≤ 32) }
    ensures { result ≡ fold bit_or 0 (take (to - from) (drop (3 + from) policy.now)) }
{
    (from..to).fold(0, |together, s| together | policy[3 + s])
}

// Whether the rows are as number 13 asks: below S no target at N or above, from S on nothing.
fn rows_fit(policy: &Policy) -> bool
    requires { signers policy.now ≤ 32 }
    ensures { result ≡ each (row_fits policy.now) 32 }
{
    let rows = signers(policy) as usize;
    bits::fits(rows_together(policy, 0, rows), targets(policy))
        && rows_together(policy, rows, 32) == 0
}

// Whether n is from 1 to `most`.
fn in_range(n: u64, most: u64) -> bool
    ensures { result ≡ within n most }
{
    (1..=most).contains(&n)
}

// Whether number 13 does not refuse the value.
#[tactic(auto, unfolding(beliefs::specs::Policy::valid))]
fn valid(policy: &Policy) -> bool
    ensures { result ≡ valid policy.now }
{
    policy[0] <= 1
        && in_range(signers(policy), 32)
        && in_range(targets(policy), 64)
        && rows_fit(policy)
}

// The front door: what refuses a policy, 13.
pub fn refusal(policy: &Policy) -> Result<(), Refusal>
    ensures { number_of result ≡ refusal policy.now }
{
    answers::unless(valid(policy), Refusal::BadPolicy)
}

// What refuses a state under it, which number 14 lets through or not: 13, 14.
pub fn refusal_in(policy: &Policy, fits: bool) -> Result<(), Refusal>
    ensures { number_of result ≡ refusal_in policy.now fits }
{
    refusal(policy)?;
    answers::unless(fits, Refusal::BadState)
}

// What refuses an operation of any signer or target in a state of so many frames: 13, 14, 5 or 6, 7, 8.
pub fn refusal_of(policy: &Policy, fits: bool, depth: u64, op: Operation) -> Result<(), Refusal>
    ensures { number_of result ≡ refusal_of policy.now fits depth op }
{
    refusal_in(policy, fits)?;
    words::outside(signers(policy), targets(policy), op)?;
    words::barred(depth, op)
}

// A word under the policy: 4, 3, 5 or 6, else its operation with its index.
pub fn decode(policy: &Policy, word: u16, index: usize) -> Result<Word, Refusal>
    ensures { decoding result ≡ reading policy.now word index }
{
    words::decode(signers(policy), targets(policy), word, index)
}

// How many bytes a row of n targets has.
fn width(n: u64) -> u64
    ensures { result ≡ width n }
{
    n.div_ceil(8)
}

// How many bytes a policy of s signers and n targets has.
fn size(s: u64, n: u64) -> u64
    requires { (s ≤ 32) × (n ≤ 64) }
    ensures { result ≡ size s n }
{
    2 + s * width(n)
}

// A byte's bits in the other order: target 0 comes first, and the first bit is the most significant.
#[tactic(auto, using(crate::proofs::Rows::mirrored_reversed))]
fn mirrored(b: u8) -> u8
    ensures { result ≡ mirrored b }
{
    b.reverse_bits()
}

// The row that a row's bytes say, from the last to the first: eight targets to a byte, the highest in the last.
fn row_of(bytes: &[u8]) -> u64
    requires { length bytes.now ≤ 8 }
    ensures { result ≡ row_of bytes.now }
{
    bytes
        .iter()
        .rev()
        .fold(0, |row, byte| (row << 8) | u64::from(mirrored(*byte)))
}

// Row s of the rows after a header, each so many bytes wide: nothing past the last.
// Not a struct of bytes, rows and width: two functions take the three, and one call of each would first make it.
fn row_in(bytes: &[u8], rows: u64, wide: u64, s: u64) -> u64
    requires { (2 + rows * wide ≤ length bytes.now) × (wide ≤ 8) }
    ensures { result ≡ get_or (rows_of rows wide (drop 2 bytes.now)) s 0 }
{
    if rows <= s {
        return 0;
    }
    let at = (2 + s * wide) as usize;
    let end = at + wide as usize;
    row_of(&bytes[at..end])
}

// Whether no row has a bit at n or above.
fn padding_clear(bytes: &[u8], rows: u64, wide: u64, n: u64) -> bool
    requires { (2 + rows * wide ≤ length bytes.now) × (wide ≤ 8) }
    ensures { result ≡ all (λ w. below w n) (rows_of rows wide (drop 2 bytes.now)) }
{
    (0..rows).all(|s| bits::fits(row_in(bytes, rows, wide, s), n))
}

// The two header bytes as one number.
fn header(bytes: &[u8]) -> u64
    requires { 2 ≤ length bytes.now }
    ensures { result ≡ header bytes.now }
{
    u64::from(u16::from_be_bytes([bytes[0], bytes[1]]))
}

// S, out of the header.
fn head_signers(h: u64) -> u64
    ensures { result ≡ head_signers h }
{
    h / 1024 % 32 + 1
}

// N, out of the header.
fn head_targets(h: u64) -> u64
    ensures { result ≡ head_targets h }
{
    h / 16 % 64 + 1
}

// What refuses the bytes: header length, header spare, too short, left over, padding.
fn refusal_read(bytes: &[u8]) -> Result<(), Refusal>
    ensures { number_of result ≡ read_number bytes.now }
{
    if bytes.len() < 2 {
        return Err(Refusal::TooFew);
    }
    let h = header(bytes);
    if h % 16 != 0 {
        return Err(Refusal::BitSet);
    }
    let rows = head_signers(h);
    let n = head_targets(h);
    let wanted = size(rows, n) as usize;
    if bytes.len() < wanted {
        return Err(Refusal::TooFew);
    }
    if wanted < bytes.len() {
        return Err(Refusal::LeftOver);
    }
    if !padding_clear(bytes, rows, width(n), n) {
        return Err(Refusal::BitSet);
    }
    Ok(())
}

// How many bytes at the front of a recording are its policy's, by the header: the trace begins there. All of them where the
// header or the rows fall short, which reading them then refuses.
#[tactic(auto, unfolding(crate::specs::Read::cut_at))]
pub fn cut(bytes: &[u8]) -> usize
    ensures { result ≡ cut_at bytes.now }
{
    if bytes.len() < 2 {
        return bytes.len();
    }
    let h = header(bytes);
    let wanted = size(head_signers(h), head_targets(h)) as usize;
    wanted.min(bytes.len())
}

// The value that accepted bytes say, into the policy.
fn store(bytes: &[u8], policy: &mut Policy)
    requires { read_number bytes.now ≡ 0 }
    ensures { policy.new ≡ value_read bytes.now }
{
    let h = header(bytes);
    let rows = head_signers(h);
    let n = head_targets(h);
    let wide = width(n);
    policy[0] = h / 32768;
    policy[1] = rows;
    policy[2] = n;
    for (s, row) in policy[3..].iter_mut().enumerate() {
        *row = row_in(bytes, rows, wide, s as u64);
    }
}

// A policy from its bytes. Where they are refused the value is left as it was lent.
pub fn read(bytes: &[u8], policy: &mut Policy) -> Result<(), Refusal>
    ensures { PolicyRead bytes.now policy.old (number_of result) policy.new }
{
    refusal_read(bytes)?;
    store(bytes, policy);
    Ok(())
}

// The header of a valid policy as one number: a sum, as the definition has it, and shifts would read no plainer.
#[tactic(auto, using(beliefs::proofs::Policy::ranges))]
fn headed(policy: &Policy) -> u16
    requires { valid policy.now ≡ true }
    ensures { result ≡ headed policy.now }
{
    (policy[0] * 32768 + (policy[1] - 1) * 1024 + (policy[2] - 1) * 16) as u16
}

// A row's bytes, from the first to the last, into their place.
fn put_row(row: u64, place: &mut [u8])
    ensures { place.new ≡ row_bytes (length place.old) row }
{
    let mut rest = row;
    for byte in place.iter_mut() {
        *byte = mirrored((rest % 256) as u8);
        rest /= 256;
    }
}

// The bytes of the S rows, after the header's.
fn put_rows(policy: &Policy, wide: u64, bytes: &mut [u8])
    requires { (signers policy.now ≤ 32) × (2 + signers policy.now * wide ≤ length bytes.old) }
    ensures { bytes.new ≡ sets bytes.old 2 (rows_bytes wide (take (signers policy.now) (drop 3 policy.now))) }
{
    for s in 0..signers(policy) {
        let at = (2 + s * wide) as usize;
        put_row(row(policy, s), &mut bytes[at..at + wide as usize]);
    }
}

// The bytes of a valid policy, at the front of a buffer that has room for them.
fn put(policy: &Policy, bytes: &mut [u8])
    requires { (valid policy.now ≡ true) × (size (signers policy.now) (targets policy.now) ≤ length bytes.old) }
    ensures { bytes.new ≡ sets bytes.old 0 (bytes_written policy.now) }
{
    bytes[..2].copy_from_slice(&headed(policy).to_be_bytes());
    put_rows(policy, width(targets(policy)), bytes);
}

// The policy's one byte form into a lent buffer: 13, 9; else how many bytes it has. No byte past it is touched, and none where it is
// refused.
pub fn write(policy: &Policy, bytes: &mut [u8]) -> Report
    ensures { Reports (report_of result) bytes.old bytes.new (writing policy.now (length bytes.old)) }
{
    refusal(policy)?;
    let wanted = size(signers(policy), targets(policy));
    answers::unless(wanted as usize <= bytes.len(), Refusal::NoRoom)?;
    put(policy, bytes);
    Ok(wanted)
}
