// The walk: frames with marks in a lent state, the operations on them in place, and the check from newest to oldest.
#![tactic(auto)]

ghost use Rattle.std.specs.Prelude.{◌≡◌, ℕ, ◌+◌, ◌-◌, cond, eqb, get_or};
ghost use Rattle.bits.specs.Bit.{with_bit};
ghost use Rattle.words.specs.declared.Operation.TheVariants.{Call, Check};
ghost use Rattle.answers.specs.Answer.{answer_of, done, Gives};
ghost use Rattle.beliefs.specs.Lists.{each};
ghost use Rattle.beliefs.specs.Stack.{nobody, start_marks, walk};
ghost use Rattle.beliefs.specs.Engine.{acts, by_frame, Serve};
ghost use Rattle.walk.specs.Layout.{depth, frame_at, frames, put};
ghost use Rattle.walk.specs.Fits.{in_use, unused, fits};
ghost use Rattle.walk.specs.Does.{decided, returned_in, remarked, marked_in};
ghost use Rattle.walk.specs.Pictures.{by_walk};

use answers::Answer;
use beliefs::{Marked, Seen};
use engine::Engine;
use policy::Policy;
use words::Operation;

// A state's words: the depth, then 63 frames, bottom first, of 3 words. Beside the policy in each function, and not in one struct with
// it: C lends the two apart.
pub const WORDS: usize = 190;

pub type State = [u64; WORDS];

// What is read where there is no frame.
const NOBODY: Marked = Marked {
    signer: 0,
    enabled: 0,
    disabled: 0,
};

// The depth. A state that says more than 63 is taken to be full.
pub fn depth(state: &State) -> u64
    ensures { result ≡ depth state.now }
{
    state[0].min(words::DEPTH_MOST)
}

// The frame above k others: zeros where there is no room for one.
#[tactic(auto, using(crate::proofs::Frames::frame_past), unfolding(crate::specs::Layout::frame_at))]
fn frame_at(state: &State, k: u64) -> Marked
    ensures { result ≡ frame_at state.now k }
{
    if words::DEPTH_MOST <= k {
        return NOBODY;
    }
    let at = (3 * k) as usize;
    Marked {
        signer: state[at + 1],
        enabled: state[at + 2],
        disabled: state[at + 3],
    }
}

// Stores a frame above k others, where there is room for one.
#[tactic(auto, using(crate::proofs::Frames::put_past))]
fn set_frame(state: &mut State, k: u64, frame: Marked)
    ensures { state.new ≡ put state.old k frame }
{
    if words::DEPTH_MOST <= k {
        return;
    }
    let at = (3 * k) as usize;
    state[at + 1] = frame.signer;
    state[at + 2] = frame.enabled;
    state[at + 3] = frame.disabled;
}

// The frame at a place, 0 at the newest: zeros where there is none.
#[tactic(auto, using(crate::proofs::Frames::place_past, crate::proofs::Frames::place_in))]
pub fn frame(state: &State, place: u64) -> Marked
    ensures { result ≡ get_or (frames state.now) place nobody }
{
    let d = depth(state);
    if d <= place {
        return NOBODY;
    }
    frame_at(state, d - 1 - place)
}

// What a frame decides of a check: its verdict, or `None` where the walk goes on below it. The target is asked by the word of its bit.
#[tactic(auto, unfolding(beliefs::specs::Policy::permits))]
fn decided(policy: &Policy, frame: Marked, asked: u64) -> Option<bool>
    ensures { (t : ℕ) → asked ≡ with_bit 0 t → result ≡ decided policy.now t frame }
{
    if !bits::meet(policy::row(policy, frame.signer), asked) {
        Some(false)
    } else if bits::meet(frame.enabled, asked) {
        Some(true)
    } else if bits::meet(frame.disabled, asked) {
        Some(false)
    } else {
        None
    }
}

// The walk from the newest frame to the oldest: the verdict on a target, and the frames looked at. A `loop` with its own count, since
// the form that is set for this place is one that yields the two together by `break`, and a `for` yields nothing.
#[tactic(auto, using(crate::proofs::Turn::start))]
pub fn check(policy: &Policy, state: &State, target: u8) -> Seen
    ensures { result ≡ walk policy.now target (frames state.now) }
{
    let asked = bits::with(0, target);
    let mut left = depth(state);
    let mut looked = 0;
    loop {
        if left == 0 {
            break Seen {
                granted: false,
                looked,
            };
        }
        left -= 1;
        looked += 1;
        if let Some(granted) = decided(policy, frame_at(state, left), asked) {
            break Seen { granted, looked };
        }
    }
}

// A frame after enable, disable or revert.
fn remark(op: Operation, m: Marked) -> Marked
    ensures { result ≡ remarked op m }
{
    match op {
        Operation::Enable(t) => Marked {
            enabled: bits::with(m.enabled, t),
            ..m
        },
        Operation::Disable(t) => Marked {
            enabled: bits::without(m.enabled, t),
            disabled: bits::with(m.disabled, t),
            ..m
        },
        Operation::Revert(t) => Marked {
            enabled: bits::without(m.enabled, t),
            ..m
        },
        Operation::Call(_) | Operation::Return | Operation::Check(_) => m,
    }
}

// Enable, disable or revert by the newest frame: 7.
fn mark(state: &mut State, op: Operation) -> Answer
    ensures { Gives (answer_of result) state.new (by_frame by_walk (done (marked_in op state.old)) state.old) }
{
    let d = depth(state);
    words::framed(d)?;
    let frame = remark(op, frame_at(state, d - 1));
    set_frame(state, d - 1, frame);
    answers::done()
}

// The enabled marks of a new frame above d others: those of the start at the bottom, else none.
#[tactic(auto, using(std::proofs::lemmas::Bool::Decides::nat_tests))]
fn first_marks(policy: &Policy, d: u64) -> u64
    ensures { result ≡ cond (eqb d 0) (start_marks policy.now) 0 }
{
    if d == 0 {
        policy::start_marks(policy)
    } else {
        0
    }
}

// A new newest frame: 8.
#[tactic(auto, unfolding(words::specs::Words::barred))]
fn call(policy: &Policy, state: &mut State, signer: u8) -> Answer
    ensures { Gives (answer_of result) state.new (acts by_walk policy.now (Call signer) state.old) }
{
    let d = depth(state);
    words::deeper(d)?;
    let enabled = first_marks(policy, d);
    let frame = Marked {
        signer: signer as u64,
        enabled,
        disabled: 0,
    };
    set_frame(state, d, frame);
    state[0] = d + 1;
    answers::done()
}

// The newest frame goes, and leaves zeros: 7.
fn leave(state: &mut State) -> Answer
    ensures { Gives (answer_of result) state.new (by_frame by_walk (done (returned_in state.old)) state.old) }
{
    let d = depth(state);
    words::framed(d)?;
    set_frame(state, d - 1, NOBODY);
    state[0] = d - 1;
    answers::done()
}

// A check by the newest frame: 7.
#[tactic(auto, using(crate::proofs::Frames::six_bits), unfolding(words::specs::Words::barred))]
fn ask(policy: &Policy, state: &State, target: u8) -> Answer
    ensures { Gives (answer_of result) state.now (acts by_walk policy.now (Check target) state.now) }
{
    words::framed(depth(state))?;
    let seen = check(policy, state, target);
    answers::verdict(seen.granted, seen.looked)
}

// One operation that the caller has decoded.
pub fn serve(policy: &Policy, state: &mut State, op: Operation) -> Answer
    ensures { Serve by_walk policy.now state.old op (answer_of result) state.new }
{
    match op {
        Operation::Call(s) => call(policy, state, s),
        Operation::Return => leave(state),
        // An arm for each, which is 3 % quicker in a mixed run: the compiler then makes of each what it alone does.
        Operation::Enable(_) => mark(state, op),
        Operation::Disable(_) => mark(state, op),
        Operation::Revert(_) => mark(state, op),
        Operation::Check(t) => ask(policy, state, t),
    }
}

// Whether every frame has a signer below S, and marks for targets below N only. One test of their marks together is quicker
// than one for each.
#[tactic(auto, using(crate::proofs::Fits::none_in_use, crate::proofs::Fits::one_in_use, crate::proofs::Fits::one_not_in_use))]
fn frames_fit(policy: &Policy, state: &State) -> bool
    ensures { result ≡ each (in_use policy.now state.now) (depth state.now) }
{
    let signers = policy::signers(policy);
    let mut marks = 0;
    for k in 0..depth(state) {
        let frame = frame_at(state, k);
        if signers <= frame.signer {
            return false;
        }
        marks |= frame.enabled | frame.disabled;
    }
    bits::fits(marks, policy::targets(policy))
}

// Whether every word above the frames is zero.
#[tactic(auto, using(crate::proofs::Fits::room_above))]
fn unused_above(state: &State) -> bool
    ensures { result ≡ each (λ k. unused state.now (depth state.now + k)) (63 - depth state.now) }
{
    let above = (3 * depth(state) + 1) as usize;
    bits::all_fit(&state[above..], 0)
}

// Whether number 14 does not refuse the state.
#[tactic(auto, unfolding(crate::specs::Fits::fits))]
pub fn valid(policy: &Policy, state: &State) -> bool
    ensures { result ≡ fits policy.now state.now }
{
    if words::DEPTH_MOST < state[0] {
        return false;
    }
    frames_fit(policy, state) && unused_above(state)
}

// The walk as an engine.
pub struct Walk;

impl Engine for Walk {
    type State = State;

    ghost by = { by_walk };

    ghost words = { λ s. s };

    ghost apart = { λ s t same. same };

    fn fresh() -> State {
        [0; WORDS]
    }

    fn valid(policy: &Policy, state: &State) -> bool {
        valid(policy, state)
    }

    fn serve(policy: &Policy, state: &mut State, op: Operation) -> Answer {
        serve(policy, state, op)
    }
}
