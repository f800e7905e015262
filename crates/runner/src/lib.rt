// A trace from a fresh start, by each engine.
#![tactic(auto)]

ghost use Rattle.std.specs.Prelude.{◌≡◌, false, length};
ghost use Rattle.answers.specs.Numbers.{number_of};
ghost use Rattle.answers.specs.Account.{Reports, report_of, stopped_at};
ghost use Rattle.words.specs.Words.{decoding};
ghost use Rattle.beliefs.specs.Trace.{run_refusal, run};
ghost use Rattle.runner.specs.Progress.{decoded_at};
ghost use Rattle.runner.specs.Nested.{leaving, Leaves};

use answers::{Refusal, Report, Stop};
use engine::Engine;
use passed::{Next, Passed};
use policy::Policy;
use words::Word;

// What refuses a run before its first word: 13, 1, 9.
fn refusal(policy: &Policy, len: usize, room: usize) -> Result<(), Refusal>
    ensures { number_of result ≡ run_refusal policy.now len room }
{
    policy::refusal(policy)?;
    answers::unless(len % 2 == 0, Refusal::TooFew)?;
    answers::unless(len / 2 <= room, Refusal::NoRoom)
}

// The word at an index, decoded.
fn decode_at(policy: &Policy, trace: &[u8], index: usize) -> Result<Word, Refusal>
    ensures { decoding result ≡ decoded_at policy.now trace.now index }
{
    policy::decode(policy, words::word_at(trace, index), index)
}

// What is refused at a word of an index stops there. `map_err` with a closure would say it too, and leave a fact that a proof cannot cite.
fn stop_at<T>(index: usize, given: Result<T, Refusal>) -> Result<T, Stop>
    ensures { result ≡ stopped_at index given }
{
    match given {
        Ok(value) => Ok(value),
        Err(why) => Err(why.at(index)),
    }
}

// A run by an engine: 13, 1, 9, then word by word, up to the first that is refused. A decoded word is taken apart by let .. else, the
// form that is set for this place; policy, trace and answers are lent by C one by one.
pub fn run<E: Engine>(policy: &Policy, trace: &[u8], answers: &mut [u8]) -> Report
    ensures { Reports (report_of result) answers.old answers.new
        (run E.by.counts policy.now trace.now (length answers.old)) }
{
    refusal(policy, trace.len(), answers.len())?;
    let words = trace.len() / 2;
    let mut state = E::fresh();
    for i in 0..words {
        let decoded = decode_at(policy, trace, i);
        let Ok(word) = decoded else {
            return Err(decoded.unwrap_err().at(i));
        };
        answers[i] = stop_at(word.index, E::serve(policy, &mut state, word.op))?;
    }
    Ok(words as u64)
}

// Where a frame's run was left: past its return, or at the trace's end.
#[derive(Clone, Copy)]
enum Left {
    Back(usize),
    Over(usize),
}

// The words of one frame from a position on, its callees' among them: it calls itself at a call, and comes back at a return. A `while`,
// since after a call the position is where the callee's run was left, which no `for` goes to.
fn frame_run(
    policy: &Policy,
    trace: &[u8],
    answers: &mut [u8],
    passed: Passed,
    from: usize,
) -> Result<Left, Stop>
    requires { run_refusal policy.now (length trace.now) (length answers.old) ≡ 0 }
    ensures { Leaves policy.now trace.now answers.old passed from
        (leaving result).at (leaving result).number (leaving result).back answers.new }
{
    let words = trace.len() / 2;
    let mut state = passed;
    let mut i = from;
    while i < words {
        let decoded = decode_at(policy, trace, i);
        let Ok(word) = decoded else {
            return Err(decoded.unwrap_err().at(i));
        };
        match stop_at(word.index, passed::serve(policy, state, word.op))? {
            Next::Up => {
                answers[i] = 0;
                return Ok(Left::Back(i + 1));
            }
            Next::Down(callee) => {
                answers[i] = 0;
                let left = frame_run(policy, trace, answers, callee, i + 1)?;
                let Left::Back(at) = left else {
                    return Ok(left);
                };
                i = at;
            }
            Next::Stay(same, byte) => {
                answers[i] = byte;
                state = same;
                i += 1;
            }
        }
    }
    Ok(Left::Over(i))
}

// A run by the passed state: 13, 1, 9, then word by word.
pub fn passed_run(policy: &Policy, trace: &[u8], answers: &mut [u8]) -> Report
    ensures { Reports (report_of result) answers.old answers.new
        (run false policy.now trace.now (length answers.old)) }
{
    refusal(policy, trace.len(), answers.len())?;
    match frame_run(policy, trace, answers, Passed::fresh(), 0)? {
        Left::Back(at) | Left::Over(at) => Ok(at as u64),
    }
}
