// The belief record: for each frame and target, which chain lengths are held, one bit of a word for each length.
#![tactic(auto)]

ghost use Rattle.std.specs.Prelude.{◌≡◌, cond, ◌+◌, ◌-◌, ◌≤◌, ◌<◌, ltb};
ghost use Rattle.answers.specs.Answer.{answer_of, done, Gives};
ghost use Rattle.words.specs.declared.Operation.TheVariants.{Call, Check};
ghost use Rattle.beliefs.specs.Lists.{each};
ghost use Rattle.beliefs.specs.Engine.{acts, by_frame, Serve};
ghost use Rattle.record.specs.Layout.{frame_from, words_from, depth, signer_at, held_at, held, filled};
ghost use Rattle.record.specs.Fits.{words_below, words, frame_fits, fits};
ghost use Rattle.record.specs.Does.{start_targets, start_word, longer, begun_in, cleared_in, left_in, held_in, granted_in};
ghost use Rattle.record.specs.Pictures.{by_record};

use answers::Answer;
use engine::Engine;
use policy::Policy;
use words::Operation;

// A state's words: the depth, and those of 63 frames. Beside the policy in each function, and not in one struct with it: C lends the
// two apart.
pub const WORDS: usize = 4096;

pub type State = [u64; WORDS];

// The targets that a frame has a word for, and its words: the signer comes first.
const TARGETS: usize = 64;

const FRAME: usize = 65;

// Where a frame begins, by how many are below it: with its signer.
fn frame_from(frame: u64) -> usize
    requires { frame ≤ 63 }
    ensures { result ≡ frame_from frame }
{
    FRAME * frame as usize + 1
}

// Where its words for the targets begin.
fn words_from(frame: u64) -> usize
    requires { frame ≤ 63 }
    ensures { result ≡ words_from frame }
{
    frame_from(frame) + 1
}

// The depth, 63 where a damaged state says more: as the walk's, of an array of another length. One function for both would be called
// with the first word, and say no more than `min`.
fn depth(state: &State) -> u64
    ensures { result ≡ depth state.now }
{
    state[0].min(words::DEPTH_MOST)
}

// How many frames are below the newest.
fn newest(state: &State) -> u64
    ensures { result ≡ depth state.now - 1 }
{
    depth(state).saturating_sub(1)
}

// The signer of a frame, by how many are below it.
fn signer(state: &State, frame: u64) -> u64
    requires { frame < 63 }
    ensures { result ≡ signer_at state.now frame }
{
    state[frame_from(frame)]
}

// The chain lengths that the newest frame holds on a target, a bit for each: none on a target over 63.
#[tactic(auto, unfolding(crate::specs::Layout::held_at))]
fn held(state: &State, target: u8) -> u64
    ensures { result ≡ held state.now target }
{
    let t = usize::from(target);
    if t < TARGETS {
        state[words_from(newest(state)) + t]
    } else {
        0
    }
}

// Whether the words from one index up to another hold no length of n or above.
#[tactic(auto, using(beliefs::proofs::Lists::part_below), unfolding(crate::specs::Fits::words_below))]
fn words_below(state: &State, from: usize, to: usize, n: u64) -> bool
    requires { (from ≤ to) × (to ≤ 4096) }
    ensures { result ≡ words_below state.now from to n }
{
    bits::all_fit(&state[from..to], n)
}

// How many of a frame's 64 words are of targets below N.
fn words(policy: &Policy) -> usize
    ensures { result ≡ words policy.now }
{
    policy::targets(policy).min(TARGETS as u64) as usize
}

// Whether a frame, by how many are below it, is as number 14 asks.
fn frame_fits(policy: &Policy, state: &State, frame: u64) -> bool
    requires { frame < 63 }
    ensures { result ≡ frame_fits policy.now state.now frame }
{
    let first = words_from(frame);
    let outside = first + words(policy);
    signer(state, frame) < policy::signers(policy)
        && words_below(state, first, outside, frame + 1)
        && words_below(state, outside, first + TARGETS, 0)
}

// Whether every frame is.
fn frames_fit(policy: &Policy, state: &State) -> bool
    ensures { result ≡ each (frame_fits policy.now state.now) (depth state.now) }
{
    (0..depth(state)).all(|frame| frame_fits(policy, state, frame))
}

// Whether there is nothing but zero in room above the depth. A frame at a time is quicker than all the room at once: the
// compiler sees how many words there are.
fn zero_above(state: &State) -> bool
    ensures { result ≡ words_below state.now (frame_from (depth state.now)) 4096 0 }
{
    (depth(state)..words::DEPTH_MOST).all(|above| {
        let at = frame_from(above);
        words_below(state, at, at + FRAME, 0)
    })
}

// Whether number 14 does not refuse the state.
#[tactic(auto, unfolding(crate::specs::Fits::fits))]
pub fn valid(policy: &Policy, state: &State) -> bool
    ensures { result ≡ fits policy.now state.now }
{
    state[0] <= words::DEPTH_MOST && frames_fit(policy, state) && zero_above(state)
}

// Ok(T) with the empty chain, for a target below n.
fn start_word(target: u64, n: u64) -> u64
    ensures { result ≡ cond (ltb target n) 1 0 }
{
    u64::from(target < n)
}

// How many targets a start hands over.
fn start_targets(policy: &Policy) -> u64
    ensures { result ≡ start_targets policy.now }
{
    if policy::is_full(policy) {
        policy::targets(policy)
    } else {
        0
    }
}

// The words of a bottom frame.
fn start(policy: &Policy, state: &mut State)
    ensures { state.new ≡ filled (words_from 0) (start_word policy.now) 64 state.old }
{
    let n = start_targets(policy);
    let first = words_from(0);
    for t in 0..TARGETS {
        state[first + t] = start_word(t as u64, n);
    }
}

// The words of the frame above another: every chain with the caller's name put in front is one longer.
fn hand_down(state: &mut State, caller: u64)
    requires { caller < 62 }
    ensures { state.new ≡ filled (words_from (caller + 1)) (λ t. longer (held_at state.old caller t)) 64 state.old }
{
    let from = words_from(caller);
    for t in 0..TARGETS {
        state[from + FRAME + t] = state[from + t] << 1;
    }
}

// The words with which a new frame begins.
fn begin(policy: &Policy, state: &mut State)
    requires { depth state.old < 63 }
    ensures { state.new ≡ begun_in policy.now state.old }
{
    let d = depth(state);
    if d == 0 {
        start(policy, state)
    } else {
        hand_down(state, d - 1)
    }
}

// Call: the new frame's words, its signer, and the depth is one more: 8.
fn call(policy: &Policy, state: &mut State, signer: u8) -> Answer
    ensures { Gives (answer_of result) state.new (acts by_record policy.now (Call signer) state.old) }
{
    let d = depth(state);
    words::deeper(d)?;
    begin(policy, state);
    state[frame_from(d)] = u64::from(signer);
    state[0] = d + 1;
    answers::done()
}

// The newest frame's words become zero, so that the next frame at its depth finds nothing of it.
fn clear(state: &mut State)
    ensures { state.new ≡ cleared_in state.old }
{
    let at = frame_from(newest(state));
    state[at..at + FRAME].fill(0);
}

// Return: the newest frame goes: 7.
fn leave(state: &mut State) -> Answer
    ensures { Gives (answer_of result) state.new (by_frame by_record (done (left_in state.old)) state.old) }
{
    let d = depth(state);
    words::framed(d)?;
    clear(state);
    state[0] = d - 1;
    answers::done()
}

// Enable, disable or revert: the newest frame's word for a target becomes another: 7.
fn hold(state: &mut State, target: u8, word: u64) -> Answer
    ensures { Gives (answer_of result) state.new (by_frame by_record (done (held_in target word state.old)) state.old) }
{
    words::framed(depth(state))?;
    let t = usize::from(target);
    if t < TARGETS {
        state[words_from(newest(state)) + t] = word;
    }
    answers::done()
}

// Whether a chain held on the target has only permitted frames. Length k is tried with the newest k + 1 frames, so the
// first that is not permitted ends it. By take_while and any a check 40 frames deep takes 97 ns in place of 59.
fn granted(policy: &Policy, state: &State, target: u8) -> bool
    ensures { result ≡ granted_in policy.now target state.now }
{
    let asked = bits::with(0, target);
    let d = depth(state);
    let lengths = held(state, target);
    for k in 0..d {
        if !bits::meet(policy::row(policy, signer(state, d - 1 - k)), asked) {
            return false;
        }
        if bits::has(lengths, k as u8) {
            return true;
        }
    }
    false
}

// Check, by the newest frame: 7. This engine counts no frames.
fn ask(policy: &Policy, state: &State, target: u8) -> Answer
    ensures { Gives (answer_of result) state.now (acts by_record policy.now (Check target) state.now) }
{
    words::framed(depth(state))?;
    let given = granted(policy, state, target);
    answers::verdict(given, 0)
}

// One operation that the caller has decoded.
pub fn serve(policy: &Policy, state: &mut State, op: Operation) -> Answer
    ensures { Serve by_record policy.now state.old op (answer_of result) state.new }
{
    match op {
        Operation::Call(s) => call(policy, state, s),
        Operation::Return => leave(state),
        Operation::Enable(t) => hold(state, t, bits::with(held(state, t), 0)),
        Operation::Disable(t) => hold(state, t, 0),
        Operation::Revert(t) => hold(state, t, bits::without(held(state, t), 0)),
        Operation::Check(t) => ask(policy, state, t),
    }
}

// The belief record as an engine.
pub struct Record;

impl Engine for Record {
    type State = State;

    ghost by = { by_record };

    ghost words = { λ s. s };

    ghost apart = { λ s t same. same };

    fn fresh() -> State {
        [0; WORDS]
    }

    fn valid(policy: &Policy, state: &State) -> bool {
        valid(policy, state)
    }

    fn serve(policy: &Policy, state: &mut State, op: Operation) -> Answer {
        serve(policy, state, op)
    }
}
