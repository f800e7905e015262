// The passed state: what a frame needs to know of its callers, a bit for each target. It goes down with a call as an argument.
#![tactic(auto)]

ghost use Rattle.std.specs.Prelude.{◌≡◌};
ghost use Rattle.answers.specs.Numbers.{number_of};
ghost use Rattle.passed.specs.Fits.{bits_fit, fits};
ghost use Rattle.passed.specs.Does.{passed_in, words_of, refused_by, granted_of, call_of, enable_of, disable_of, revert_of, check_of, led_to, next_in, leading};
ghost use Rattle.passed.specs.Pictures.{Begins, Passes};

use answers::Refusal;
use policy::Policy;
use words::Operation;

// A state's words: depth, signer, own, callers.
pub const WORDS: usize = 4;

pub type State = [u64; WORDS];

// A word with no bit set.
const NO_TARGETS: u64 = 0;

// The answer byte of an operation that is not a check.
const DONE: u8 = 0;

// What a frame knows. `own`: what it enabled itself, or a full start handed it, and it has not reverted or disabled since;
// `callers`: what its callers would have been granted at the call, and it has not disabled since.
#[derive(Clone, Copy, Debug, PartialEq, Eq)]
pub struct Passed {
    pub depth: u64,
    pub signer: u64,
    pub own: u64,
    pub callers: u64,
}

// What an operation leads to: the same frame with an answer byte, the callee, or the caller.
#[derive(Clone, Copy, Debug, PartialEq, Eq)]
pub enum Next {
    Stay(Passed, u8),
    Down(Passed),
    Up,
}

impl From<State> for Passed {
    ghost from_gives = { λ words s. s ≡ passed_in words };

    fn from(words: State) -> Passed {
        let [depth, signer, own, callers] = words;
        Passed {
            depth,
            signer,
            own,
            callers,
        }
    }
}

impl From<Passed> for State {
    ghost from_gives = { λ s words. words ≡ words_of s };

    fn from(s: Passed) -> State {
        [s.depth, s.signer, s.own, s.callers]
    }
}

impl Passed {
    // No frame.
    pub fn fresh() -> Self
        ensures { Begins result }
    {
        Passed {
            depth: 0,
            signer: 0,
            own: 0,
            callers: 0,
        }
    }

    // The targets that a check would be granted, a bit each.
    fn granted(self, policy: &Policy) -> u64
        ensures { result ≡ granted_of policy.now self }
    {
        let permitted = policy::row(policy, self.signer);
        let own = self.own;
        let callers = self.callers;
        permitted & (own | callers)
    }

    // The callee's state; at depth 63, where a call is refused, the state as it was.
    pub fn call(self, policy: &Policy, signer: u8) -> Self
        ensures { result ≡ call_of policy.now self signer }
    {
        if words::DEPTH_MOST <= self.depth {
            return self;
        }
        if self.depth == 0 {
            let handed = policy::start_marks(policy);
            return Passed {
                depth: 1,
                signer: signer as u64,
                own: handed,
                callers: NO_TARGETS,
            };
        }
        let granted = self.granted(policy);
        Passed {
            depth: self.depth + 1,
            signer: signer as u64,
            own: NO_TARGETS,
            callers: granted,
        }
    }

    // The frame has the target as its own, whether or not its signer is permitted.
    pub fn enable(mut self, target: u8) -> Self
        ensures { result ≡ enable_of self target }
    {
        self.own = bits::with(self.own, target);
        self
    }

    // The frame has the target no more, neither as its own nor from its callers.
    pub fn disable(mut self, target: u8) -> Self
        ensures { result ≡ disable_of self target }
    {
        self.callers = bits::without(self.callers, target);
        self.revert(target)
    }

    // The frame has the target as its own no more.
    pub fn revert(mut self, target: u8) -> Self
        ensures { result ≡ revert_of self target }
    {
        self.own = bits::without(self.own, target);
        self
    }

    // Whether the frame's signer is permitted the target, and the frame has it as its own or from its callers.
    pub fn check(self, policy: &Policy, target: u8) -> bool
        ensures { result ≡ check_of policy.now self target }
    {
        let granted = self.granted(policy);
        bits::has(granted, target)
    }

    // Where an operation that nothing refuses leads.
    fn led(self, policy: &Policy, op: Operation) -> Next
        ensures { next_in result ≡ led_to policy.now self op }
    {
        match op {
            Operation::Call(signer) => Next::Down(self.call(policy, signer)),
            Operation::Return => Next::Up,
            Operation::Enable(target) => Next::Stay(self.enable(target), DONE),
            Operation::Disable(target) => Next::Stay(self.disable(target), DONE),
            Operation::Revert(target) => Next::Stay(self.revert(target), DONE),
            Operation::Check(target) => {
                let byte = answers::verdict_byte(self.check(policy, target), 0);
                Next::Stay(self, byte)
            }
        }
    }
}

// What an operation of the policy's signers and targets does: 7, 8, else where it leads.
pub fn serve(policy: &Policy, s: Passed, op: Operation) -> Result<Next, Refusal>
    ensures { Passes policy.now s op (leading result) }
{
    words::barred(s.depth, op)?;
    Ok(s.led(policy, op))
}

// Whether no bit is set for a target at n or above, and none of the callers at depth 1: a bottom frame has no caller.
fn bits_fit(s: Passed, n: u64) -> bool
    ensures { result ≡ bits_fit s n }
{
    if !bits::fits(s.own, n) {
        return false;
    }
    if s.depth == 1 {
        return s.callers == 0;
    }
    bits::fits(s.callers, n)
}

// Whether number 14 does not refuse the state.
pub fn valid(policy: &Policy, s: Passed) -> bool
    ensures { result ≡ fits policy.now s }
{
    if s.depth == 0 {
        return s == Passed::fresh();
    }
    if words::DEPTH_MOST < s.depth {
        return false;
    }
    if policy::signers(policy) <= s.signer {
        return false;
    }
    bits_fit(s, policy::targets(policy))
}

// What refuses an operation on any policy and state: 13, 14, 5 or 6, 7, 8. The methods above do what is let through.
pub fn refusal(policy: &Policy, s: Passed, op: Operation) -> Result<(), Refusal>
    ensures { number_of result ≡ refused_by policy.now s op }
{
    policy::refusal_of(policy, valid(policy, s), s.depth, op)
}
