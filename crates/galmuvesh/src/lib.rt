// The C boundary: one function for each line of include/galmuvesh.h, thin over the crates below. galmuvesh_c exports each under
// its own name.
#![tactic(auto)]

ghost use Rattle.std.specs.Prelude.{◌≡◌, true, false, length, cond, eqb};
ghost use Rattle.answers.specs.Numbers.{number_of};
ghost use Rattle.answers.specs.Answer.{answer_of};
ghost use Rattle.answers.specs.Account.{report_of, Reports, Tells};
ghost use Rattle.words.specs.declared.Operation.TheVariants.{Call, Enable, Disable, Revert};
ghost use Rattle.beliefs.specs.Policy as policies;
ghost use Rattle.beliefs.specs.Trace.{run};
ghost use Rattle.beliefs.specs.Engine.{Operate};
ghost use Rattle.policy.specs.Read.{PolicyRead, cut_at};
ghost use Rattle.walk.specs.Pictures.{by_walk};
ghost use Rattle.record.specs.Pictures.{by_record};
ghost use Rattle.derivation.specs.Promise.{checking, writing};
ghost use Rattle.galmuvesh.specs.Boundary.{report, after, returns, Moves, Asks};

use answers::{Answer, Refusal, Report};
use passed::Passed;
use policy::Policy;
use record::Record;
use walk::Walk;
use words::Operation;

// A passed state, in the words that a host lends, and how many.
pub use passed::{State, WORDS};

// The number of what may be refused: 0 where it is not.
fn number(given: Result<(), Refusal>) -> u8
    ensures { result ≡ number_of given }
{
    match given {
        Ok(()) => 0,
        Err(why) => why.number(),
    }
}

// The number of a report; its figure goes through a pointer.
fn told(given: Report, figure: &mut u64) -> u8
    ensures { report_of given ≡ report result figure.new }
{
    match given {
        Ok(count) => {
            *figure = count;
            0
        }
        Err(stop) => {
            *figure = stop.at;
            stop.why.number()
        }
    }
}

// The number of an answer; its byte goes through a pointer, where the operation is accepted.
fn answered(given: Answer, answer: &mut u8) -> u8
    ensures number { result ≡ (answer_of given).number }
    ensures byte { answer.new ≡ cond (eqb (answer_of given).number 0) (answer_of given).byte answer.old }
{
    match given {
        Ok(byte) => {
            *answer = byte;
            0
        }
        Err(refusal) => refusal.number(),
    }
}

// A policy from its bytes.
pub fn galmuvesh_policy_read(bytes: &[u8], policy: &mut Policy) -> u8
    ensures { PolicyRead bytes.now policy.old result policy.new }
{
    number(policy::read(bytes, policy))
}

// How many bytes at the front of a recording are its policy's.
pub fn galmuvesh_policy_cut(bytes: &[u8]) -> usize
    ensures { result ≡ cut_at bytes.now }
{
    policy::cut(bytes)
}

// The policy's one byte form.
pub fn galmuvesh_policy_write(policy: &Policy, bytes: &mut [u8], figure: &mut u64) -> u8
    ensures { Reports (report result figure.new) bytes.old bytes.new
        (policies.writing policy.now (length bytes.old)) }
{
    told(policy::write(policy, bytes), figure)
}

// A trace from a fresh start, by the walk.
pub fn galmuvesh_walk_run(policy: &Policy, trace: &[u8], answers: &mut [u8], figure: &mut u64) -> u8
    ensures { Reports (report result figure.new) answers.old answers.new
        (run true policy.now trace.now (length answers.old)) }
{
    told(runner::run::<Walk>(policy, trace, answers), figure)
}

// The same by the belief record.
pub fn galmuvesh_record_run(
    policy: &Policy,
    trace: &[u8],
    answers: &mut [u8],
    figure: &mut u64,
) -> u8
    ensures { Reports (report result figure.new) answers.old answers.new
        (run false policy.now trace.now (length answers.old)) }
{
    told(runner::run::<Record>(policy, trace, answers), figure)
}

// The same by the passed state.
pub fn galmuvesh_passed_run(
    policy: &Policy,
    trace: &[u8],
    answers: &mut [u8],
    figure: &mut u64,
) -> u8
    ensures { Reports (report result figure.new) answers.old answers.new
        (run false policy.now trace.now (length answers.old)) }
{
    told(runner::passed_run(policy, trace, answers), figure)
}

// One operation word on a live walk state.
pub fn galmuvesh_walk_operate(
    policy: &Policy,
    state: &mut walk::State,
    word: u16,
    answer: &mut u8,
) -> u8
    ensures { Operate by_walk policy.now state.old word answer.old result answer.new state.new }
{
    answered(engine::operate::<Walk>(policy, state, word), answer)
}

// The same on a live belief record.
pub fn galmuvesh_record_operate(
    policy: &Policy,
    state: &mut record::State,
    word: u16,
    answer: &mut u8,
) -> u8
    ensures { Operate by_record policy.now state.old word answer.old result answer.new state.new }
{
    answered(engine::operate::<Record>(policy, state, word), answer)
}

// The state of the newest frame after an operation that nothing refuses: a call leads to the callee's.
fn after(policy: &Policy, s: Passed, op: Operation) -> Passed
    ensures { result ≡ after policy.now s op }
{
    match op {
        Operation::Call(signer) => s.call(policy, signer),
        Operation::Enable(target) => s.enable(target),
        Operation::Disable(target) => s.disable(target),
        Operation::Revert(target) => s.revert(target),
        Operation::Return | Operation::Check(_) => s,
    }
}

// Call, enable, disable or revert on the four words.
fn moved(policy: &Policy, state: &mut State, op: Operation) -> Result<(), Refusal>
    requires { returns op ≡ false }
    ensures { Moves policy.now state.old op (number_of result) state.new }
{
    let s = Passed::from(*state);
    passed::refusal(policy, s, op)?;
    *state = State::from(after(policy, s, op));
    Ok(())
}

// The state becomes the callee's; the caller keeps its own.
pub fn galmuvesh_passed_call(policy: &Policy, state: &mut State, signer: u8) -> u8
    ensures { Moves policy.now state.old (Call signer) result state.new }
{
    number(moved(policy, state, Operation::Call(signer)))
}

// The frame enables a target.
pub fn galmuvesh_passed_enable(policy: &Policy, state: &mut State, target: u8) -> u8
    ensures { Moves policy.now state.old (Enable target) result state.new }
{
    number(moved(policy, state, Operation::Enable(target)))
}

// The frame disables a target.
pub fn galmuvesh_passed_disable(policy: &Policy, state: &mut State, target: u8) -> u8
    ensures { Moves policy.now state.old (Disable target) result state.new }
{
    number(moved(policy, state, Operation::Disable(target)))
}

// The frame reverts a target.
pub fn galmuvesh_passed_revert(policy: &Policy, state: &mut State, target: u8) -> u8
    ensures { Moves policy.now state.old (Revert target) result state.new }
{
    number(moved(policy, state, Operation::Revert(target)))
}

// The frame checks a target. The tail of `answered` is written out, since what is asked first is a refusal, and no answer yet.
pub fn galmuvesh_passed_check(policy: &Policy, state: &State, target: u8, answer: &mut u8) -> u8
    ensures { Asks policy.now state.now target result answer.old answer.new }
{
    let s = Passed::from(*state);
    match passed::refusal(policy, s, Operation::Check(target)) {
        Ok(()) => {
            *answer = answers::verdict_byte(s.check(policy, target), 0);
            0
        }
        Err(why) => why.number(),
    }
}

// The derivation of a granted check.
pub fn galmuvesh_derivation_write(
    policy: &Policy,
    state: &walk::State,
    target: u8,
    steps: &mut [u8],
    figure: &mut u64,
) -> u8
    ensures { Reports (report result figure.new) steps.old steps.new
        (writing policy.now state.now target (length steps.old)) }
{
    told(derivation::write(policy, state, target, steps), figure)
}

// Whether a derivation is accepted.
pub fn galmuvesh_derivation_check(
    policy: &Policy,
    state: &walk::State,
    target: u8,
    steps: &[u8],
    figure: &mut u64,
) -> u8
    ensures { Tells (report result figure.new) (checking policy.now state.now target steps.now) }
{
    told(derivation::check(policy, state, target, steps), figure)
}
