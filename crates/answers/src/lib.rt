// Refusals by name, the answer to one operation, the report of a run. What they mean stands in specs/.
#![tactic(auto)]

ghost use Rattle.std.specs.Prelude.{◌≡◌, ◌%◌, Ok};
ghost use Rattle.answers.specs.Numbers.{number, given_unless};
ghost use Rattle.answers.specs.Answer.{verdict_byte};

// Why something is refused: document 01's numbers for no, in their order.
#[derive(Clone, Copy, Debug, PartialEq, Eq)]
pub enum Refusal {
    TooFew = 1,
    LeftOver,
    BitSet,
    Unknown,
    NoSigner,
    NoTarget,
    NoFrame,
    TooDeep,
    NoRoom,
    NotAllowed,
    NotEmpty,
    Forbidden,
    BadPolicy,
    BadState,
}

impl Refusal {
    // The number by which a host of C knows it.
    pub fn number(self) -> u8
        ensures { result ≡ number self }
    {
        self as u8
    }

    // The stop at the word or step of an index that it refuses.
    pub fn at(self, index: usize) -> Stop
        ensures { result ≡ record { why = self; at = index } }
    {
        Stop {
            why: self,
            at: index as u64,
        }
    }
}

// What an engine answers to one operation: its answer byte, or why it is refused.
pub type Answer = Result<u8, Refusal>;

// Where a run, a writer or a checker was stopped, and why: at a word or step of an index, or, before the first, at 0.
#[derive(Clone, Copy, Debug, PartialEq, Eq)]
pub struct Stop {
    pub why: Refusal,
    pub at: u64,
}

// What a run, a writer or a checker reports: its figure, or the stop.
pub type Report = Result<u64, Stop>;

impl From<Refusal> for Stop {
    ghost from_gives = { λ why stop. stop ≡ record { why = why; at = 0 } };

    fn from(why: Refusal) -> Stop {
        Stop { why, at: 0 }
    }
}

// Accepted, with the answer byte of an operation that is not a check.
pub fn done() -> Answer
    ensures { result ≡ Ok 0 }
{
    Ok(0)
}

// Accepted, with the answer byte of a check.
pub fn verdict(granted: bool, looked: u64) -> Answer
    ensures { result ≡ Ok (verdict_byte granted (looked % 64)) }
{
    Ok(verdict_byte(granted, looked))
}

// The answer byte of a check: its kind, and the frames looked at in six bits. The kind is a number here, as C reads it.
pub fn verdict_byte(granted: bool, looked: u64) -> u8
    ensures { result ≡ verdict_byte granted (looked % 64) }
{
    let count = (looked % 64) as u8;
    if granted { 64 + count } else { 128 + count }
}

// Refused where a test fails, for whatever reason is given.
pub fn unless<E: Drop>(holds: bool, why: E) -> Result<(), E>
    ensures { result ≡ given_unless holds why }
{
    if holds { Ok(()) } else { Err(why) }
}
