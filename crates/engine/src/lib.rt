// What an engine is in code: the trait of every engine over lent words, and one operation word on its state, once for all.
#![tactic(auto)]

ghost use Rattle.std.specs.Prelude.{◌≡◌, List, ℕ, replicate};
ghost use Rattle.answers.specs.Answer.{answer_of};
ghost use Rattle.beliefs.specs.Engine as engines;

use answers::{Answer, Refusal};
use policy::Policy;
use words::Operation;

// An engine, by the value of the definitions that says what it does.
pub trait Engine {
    // A state: so many words, that a host may lend.
    type State: Copy;

    ghost by: { engines.Engine };

    ghost words: { Self.State → List ℕ };

    // A state without a frame.
    fn fresh() -> Self::State
        ensures { words result ≡ replicate by.size 0 };

    // Whether number 14 does not refuse the state.
    fn valid(policy: &Policy, state: &Self::State) -> bool
        ensures { result ≡ by.fits policy.now (words state.now) };

    // One operation that the caller has decoded: 7, 8.
    fn serve(policy: &Policy, state: &mut Self::State, op: Operation) -> Answer
        ensures { engines.Serve by policy.now (words state.old) op (answer_of result) (words state.new) };

    // A state is its words, with nothing beside them: so an answer and the words left are all that is left.
    ghost apart: { (s t : Self.State) → words s ≡ words t → s ≡ t };
}

// One operation word: 13, 14, 4, 3, 5 or 6, 7, 8, else the answer byte. 14 is asked where 13 lets the policy in, and not before.
pub fn operate<E: Engine>(policy: &Policy, state: &mut E::State, word: u16) -> Answer
    ensures { engines.Works E.by policy.now (E.words state.old) word (answer_of result) (E.words state.new) }
{
    policy::refusal(policy)?;
    answers::unless(E::valid(policy, state), Refusal::BadState)?;
    let word = policy::decode(policy, word, 0)?;
    E::serve(policy, state, word.op)
}
