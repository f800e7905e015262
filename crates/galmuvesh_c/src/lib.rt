// The C library: one export for each line of include/galmuvesh.h, each the function of `galmuvesh` that has its name, with the same
// clause: they stand in a crate of their own, since no crate may stand on a static library. An array crosses as a plain pointer, a slice
// as a pointer and then a length.
#![tactic(auto)]

ghost use Rattle.std.specs.Prelude.{◌≡◌, true, false, length};
ghost use Rattle.answers.specs.Account.{Reports, Tells};
ghost use Rattle.words.specs.declared.Operation.TheVariants.{Call, Enable, Disable, Revert};
ghost use Rattle.beliefs.specs.Policy as policies;
ghost use Rattle.beliefs.specs.Trace.{run};
ghost use Rattle.beliefs.specs.Engine.{Operate};
ghost use Rattle.policy.specs.Read.{PolicyRead, cut_at};
ghost use Rattle.walk.specs.Pictures.{by_walk};
ghost use Rattle.record.specs.Pictures.{by_record};
ghost use Rattle.derivation.specs.Promise.{checking, writing};
ghost use Rattle.galmuvesh.specs.Boundary.{report, Moves, Asks};

use passed::State;
use policy::Policy;

// A policy from its bytes.
#[unsafe(no_mangle)]
pub extern "C" fn galmuvesh_policy_read(bytes: &[u8], policy: &mut Policy) -> u8
    ensures { PolicyRead bytes.now policy.old result policy.new }
{
    galmuvesh::galmuvesh_policy_read(bytes, policy)
}

// How many bytes at the front of a recording are its policy's.
#[unsafe(no_mangle)]
pub extern "C" fn galmuvesh_policy_cut(bytes: &[u8]) -> usize
    ensures { result ≡ cut_at bytes.now }
{
    galmuvesh::galmuvesh_policy_cut(bytes)
}

// The policy's one byte form.
#[unsafe(no_mangle)]
pub extern "C" fn galmuvesh_policy_write(policy: &Policy, bytes: &mut [u8], figure: &mut u64) -> u8
    ensures { Reports (report result figure.new) bytes.old bytes.new
        (policies.writing policy.now (length bytes.old)) }
{
    galmuvesh::galmuvesh_policy_write(policy, bytes, figure)
}

// A trace from a fresh start, by the walk.
#[unsafe(no_mangle)]
pub extern "C" fn galmuvesh_walk_run(
    policy: &Policy,
    trace: &[u8],
    answers: &mut [u8],
    figure: &mut u64,
) -> u8
    ensures { Reports (report result figure.new) answers.old answers.new
        (run true policy.now trace.now (length answers.old)) }
{
    galmuvesh::galmuvesh_walk_run(policy, trace, answers, figure)
}

// The same by the belief record.
#[unsafe(no_mangle)]
pub extern "C" fn galmuvesh_record_run(
    policy: &Policy,
    trace: &[u8],
    answers: &mut [u8],
    figure: &mut u64,
) -> u8
    ensures { Reports (report result figure.new) answers.old answers.new
        (run false policy.now trace.now (length answers.old)) }
{
    galmuvesh::galmuvesh_record_run(policy, trace, answers, figure)
}

// The same by the passed state.
#[unsafe(no_mangle)]
pub extern "C" fn galmuvesh_passed_run(
    policy: &Policy,
    trace: &[u8],
    answers: &mut [u8],
    figure: &mut u64,
) -> u8
    ensures { Reports (report result figure.new) answers.old answers.new
        (run false policy.now trace.now (length answers.old)) }
{
    galmuvesh::galmuvesh_passed_run(policy, trace, answers, figure)
}

// One operation word on a live walk state.
#[unsafe(no_mangle)]
pub extern "C" fn galmuvesh_walk_operate(
    policy: &Policy,
    state: &mut walk::State,
    word: u16,
    answer: &mut u8,
) -> u8
    ensures { Operate by_walk policy.now state.old word answer.old result answer.new state.new }
{
    galmuvesh::galmuvesh_walk_operate(policy, state, word, answer)
}

// The same on a live belief record.
#[unsafe(no_mangle)]
pub extern "C" fn galmuvesh_record_operate(
    policy: &Policy,
    state: &mut record::State,
    word: u16,
    answer: &mut u8,
) -> u8
    ensures { Operate by_record policy.now state.old word answer.old result answer.new state.new }
{
    galmuvesh::galmuvesh_record_operate(policy, state, word, answer)
}

// The state becomes the callee's; the caller keeps its own.
#[unsafe(no_mangle)]
pub extern "C" fn galmuvesh_passed_call(policy: &Policy, state: &mut State, signer: u8) -> u8
    ensures { Moves policy.now state.old (Call signer) result state.new }
{
    galmuvesh::galmuvesh_passed_call(policy, state, signer)
}

// The frame enables a target.
#[unsafe(no_mangle)]
pub extern "C" fn galmuvesh_passed_enable(policy: &Policy, state: &mut State, target: u8) -> u8
    ensures { Moves policy.now state.old (Enable target) result state.new }
{
    galmuvesh::galmuvesh_passed_enable(policy, state, target)
}

// The frame disables a target.
#[unsafe(no_mangle)]
pub extern "C" fn galmuvesh_passed_disable(policy: &Policy, state: &mut State, target: u8) -> u8
    ensures { Moves policy.now state.old (Disable target) result state.new }
{
    galmuvesh::galmuvesh_passed_disable(policy, state, target)
}

// The frame reverts a target.
#[unsafe(no_mangle)]
pub extern "C" fn galmuvesh_passed_revert(policy: &Policy, state: &mut State, target: u8) -> u8
    ensures { Moves policy.now state.old (Revert target) result state.new }
{
    galmuvesh::galmuvesh_passed_revert(policy, state, target)
}

// The frame checks a target.
#[unsafe(no_mangle)]
pub extern "C" fn galmuvesh_passed_check(
    policy: &Policy,
    state: &State,
    target: u8,
    answer: &mut u8,
) -> u8
    ensures { Asks policy.now state.now target result answer.old answer.new }
{
    galmuvesh::galmuvesh_passed_check(policy, state, target, answer)
}

// The derivation of a granted check.
#[unsafe(no_mangle)]
pub extern "C" fn galmuvesh_derivation_write(
    policy: &Policy,
    state: &walk::State,
    target: u8,
    steps: &mut [u8],
    figure: &mut u64,
) -> u8
    ensures { Reports (report result figure.new) steps.old steps.new
        (writing policy.now state.now target (length steps.old)) }
{
    galmuvesh::galmuvesh_derivation_write(policy, state, target, steps, figure)
}

// Whether a derivation is accepted.
#[unsafe(no_mangle)]
pub extern "C" fn galmuvesh_derivation_check(
    policy: &Policy,
    state: &walk::State,
    target: u8,
    steps: &[u8],
    figure: &mut u64,
) -> u8
    ensures { Tells (report result figure.new) (checking policy.now state.now target steps.now) }
{
    galmuvesh::galmuvesh_derivation_check(policy, state, target, steps, figure)
}
