// Derivations over a policy, a walk state and a target: the checker, which goes by the steps alone, and the writer.
#![tactic(auto)]

ghost use Rattle.std.specs.Prelude.{◌≡◌, false, cond, not, List, [], ◌+◌, ◌*◌, ◌≤◌, ◌<◌, take, length};
ghost use Rattle.std.proofs.Math.Option.{some, none};
ghost use Rattle.std.proofs.lemmas.List.Edits.{sets};
ghost use Rattle.bits.specs.Bit.{bit};
ghost use Rattle.beliefs.specs.declared.Marked.{Marked};
ghost use Rattle.beliefs.specs.Lists.{all};
ghost use Rattle.answers.specs.Numbers.{number_of};
ghost use Rattle.answers.specs.Account.{Reports, Tells, report_of};
ghost use Rattle.beliefs.specs.Derivation.{may_take, taken, spoken, allowed, at_place, drop_last, rule, follow, judge, at_places, ours};
ghost use Rattle.walk.specs.Layout.{frames};
ghost use Rattle.derivation.specs.Rule.{number};
ghost use Rattle.derivation.specs.Chain.{entries, outcome, Leaves};
ghost use Rattle.derivation.specs.Promise.{barred, checking, writing};

use answers::{Refusal, Report, Stop};
use policy::Policy;
use walk::State;
use words::Operation;

// The rules, in the order of a step's two high bits. A place, the six low ones, stays a number that is required to be below 64: a type
// of places would be made at one call of each and taken apart there.
#[derive(Clone, Copy)]
enum Rule {
    Take,
    Speak,
    Permit,
    Drop,
}

impl Rule {
    // The rule that a step names.
    fn of(step: u8) -> Self
        ensures { number result ≡ rule step }
    {
        match step / 64 {
            0 => Rule::Take,
            1 => Rule::Speak,
            2 => Rule::Permit,
            _ => Rule::Drop,
        }
    }

    // The step that names it, and a place.
    fn at(self, place: u8) -> u8
        requires { place < 64 }
        ensures { result ≡ number self * 64 + place }
    {
        self as u8 * 64 + place
    }
}

// A chain: its length, and a bit for each place that has spoken and for each that is T. It is empty until a take makes one.
#[derive(Clone, Copy, Default)]
struct Chain {
    len: u8,
    spoken: u64,
    done: u64,
}

// Policy, state and target are lent or handed over by C one by one, and stay three parameters of the functions below.

// Whether none of the n newest frames has the target disabled.
fn none_disabled(state: &State, target: u8, n: u64) -> bool
    ensures { result ≡ all (λ (m : Marked). not (bit m.disabled target)) (take n (frames state.now)) }
{
    let asked = bits::with(0, target);
    (0..n).all(|k| !bits::meet(walk::frame(state, k).disabled, asked))
}

// Whether n frames may be taken: the n-th has the target enabled, and none of the first n - 1 has it disabled.
#[tactic(auto, unfolding(beliefs::specs::Derivation::may_take), using(walk::proofs::Frames::frames_at_length))]
fn may_take(state: &State, target: u8, n: u64) -> bool
    ensures { result ≡ may_take target n (frames state.now) }
{
    1 <= n
        && n <= walk::depth(state)
        && bits::has(walk::frame(state, n - 1).enabled, target)
        && none_disabled(state, target, n - 1)
}

impl Chain {
    // Rule 0: the chain becomes the n newest frames.
    #[tactic(auto, using(crate::proofs::Entries::rule_0))]
    fn take(state: &State, target: u8, n: u8) -> Option<Self>
        ensures { outcome (frames state.now) result ≡ cond (may_take target n (frames state.now)) (some (taken n (frames state.now))) none }
    {
        may_take(state, target, n as u64).then_some(Chain {
            len: n,
            ..Chain::default()
        })
    }

    // Rule 1: a frame becomes its signer.
    #[tactic(auto, using(crate::proofs::Entries::rule_1))]
    fn speak(self, place: u8) -> Option<Self>
        requires { place < 64 }
        ensures { Leaves result (λ (ms : List Marked). at_place spoken place (entries ms self)) }
    {
        if self.len <= place || bits::has(self.done, place) || bits::has(self.spoken, place) {
            return None;
        }
        Some(Chain {
            spoken: bits::with(self.spoken, place),
            ..self
        })
    }

    // Rule 2: a signer becomes the target, if the policy permits.
    #[tactic(auto, using(crate::proofs::Entries::rule_2), unfolding(beliefs::specs::Policy::permits))]
    fn permit(self, policy: &Policy, state: &State, target: u8, place: u8) -> Option<Self>
        requires { place < 64 }
        ensures { outcome (frames state.now) result ≡ at_place (allowed policy.now target) place (entries (frames state.now) self) }
    {
        if self.len <= place || bits::has(self.done, place) || !bits::has(self.spoken, place) {
            return None;
        }
        let frame = walk::frame(state, place as u64);
        // By the word of the target's bit, which is the same at every step: a test of the bit itself would shift each row anew.
        if !bits::meet(policy::row(policy, frame.signer), bits::with(0, target)) {
            return None;
        }
        Some(Chain {
            done: bits::with(self.done, place),
            ..self
        })
    }

    // Rule 3: the chain's last entry, if it is the target, is dropped.
    #[tactic(auto, using(crate::proofs::Entries::rule_3))]
    fn drop_last(self) -> Option<Self>
        ensures { Leaves result (λ (ms : List Marked). drop_last (entries ms self)) }
    {
        let last = self.len.checked_sub(1)?;
        bits::has(self.done, last).then_some(Chain { len: last, ..self })
    }
}

// One step: the rule that its byte names, at the place that it names.
#[tactic(auto, unfolding(beliefs::specs::Derivation::follow))]
fn follow(policy: &Policy, state: &State, target: u8, step: u8, chain: Chain) -> Option<Chain>
    ensures { outcome (frames state.now) result ≡ follow policy.now (frames state.now) target step (entries (frames state.now) chain) }
{
    let place = step % 64;
    match Rule::of(step) {
        Rule::Take => Chain::take(state, target, place),
        Rule::Speak => chain.speak(place),
        Rule::Permit => chain.permit(policy, state, target, place),
        Rule::Drop if place == 0 => chain.drop_last(),
        Rule::Drop => None,
    }
}

// The steps in order, from no chain: 10 with the step's index, 11. From an empty chain only a take is allowed, so where there is a step, one was taken.
#[tactic(auto, using(crate::proofs::Judged::judging))]
fn judge(policy: &Policy, state: &State, target: u8, steps: &[u8]) -> Report
    ensures { Tells (report_of result) (judge policy.now (frames state.now) target false 0 [] steps.now) }
{
    let mut chain = Chain::default();
    for (i, step) in steps.iter().enumerate() {
        chain = follow(policy, state, target, *step, chain).ok_or(Stop {
            why: Refusal::NotAllowed,
            at: i as u64,
        })?;
    }
    answers::unless(!steps.is_empty() && chain.len == 0, Refusal::NotEmpty)?;
    Ok(steps.len() as u64)
}

// What refuses before any step is looked at or written, as it would the check itself: 13, 14, 6, 7.
fn barred(policy: &Policy, state: &State, target: u8) -> Result<(), Refusal>
    ensures { number_of result ≡ barred policy.now state.now target }
{
    policy::refusal_of(
        policy,
        walk::valid(policy, state),
        walk::depth(state),
        Operation::Check(target),
    )
}

// The number of a derivation's steps, where it is accepted: 13, 14, 6, 7, 10, 11.
#[tactic(auto, using(crate::proofs::Judged::checked))]
pub fn check(policy: &Policy, state: &State, target: u8, steps: &[u8]) -> Report
    ensures { Tells (report_of result) (checking policy.now state.now target steps.now) }
{
    barred(policy, state, target)?;
    judge(policy, state, target, steps)
}

// A rule at each place of a chain as long as the buffer.
#[tactic(auto, using(crate::proofs::Ours::each_place))]
fn put_rule(steps: &mut [u8], rule: Rule)
    requires { length steps.old ≤ 64 }
    ensures { steps.new ≡ at_places (number rule) 0 (length steps.old) }
{
    for (k, step) in steps.iter_mut().enumerate() {
        *step = rule.at(k as u8);
    }
}

// Writes ours at the front of a buffer with room for it. Each rule has a loop of its own, with no test of which rule is next.
#[tactic(auto, using(crate::proofs::Ours::ours_put))]
fn write_ours(steps: &mut [u8], n: usize)
    requires { (n < 64) × (3 * n + 1 ≤ length steps.old) }
    ensures { steps.new ≡ sets steps.old 0 (ours n) }
{
    steps[0] = Rule::Take.at(n as u8);
    put_rule(&mut steps[1..n + 1], Rule::Speak);
    put_rule(&mut steps[n + 1..2 * n + 1], Rule::Permit);
    steps[2 * n + 1..3 * n + 1].fill(Rule::Drop.at(0));
}

// Writes the derivation for a granted check, and reports the number of its steps: 13, 14, 6, 7, 12, 9.
#[tactic(auto, using(crate::proofs::Judged::writes))]
pub fn write(policy: &Policy, state: &State, target: u8, steps: &mut [u8]) -> Report
    ensures { Reports (report_of result) steps.old steps.new
        (writing policy.now state.now target (length steps.old)) }
{
    barred(policy, state, target)?;
    let seen = walk::check(policy, state, target);
    answers::unless(seen.granted, Refusal::Forbidden)?;
    let n = (seen.looked % 64) as usize;
    let wanted = 3 * n + 1;
    answers::unless(wanted <= steps.len(), Refusal::NoRoom)?;
    write_ours(steps, n);
    Ok(wanted as u64)
}
