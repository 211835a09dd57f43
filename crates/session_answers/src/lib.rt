// The answers of the calls that C makes, as cases and as 64 bits.

#![tactic(auto)]

ghost use Rattle.std.specs.Prelude.{◌≡◌};
ghost use Rattle.model.specs.Session.{refused};
ghost use Rattle.file_lines.specs.Answer.{answered, Answers};
ghost use Rattle.session_answers.specs.Recorded.{recorded_checks};
ghost use Rattle.session_answers.specs.Refusals.{recorded_refusal};
ghost use Rattle.session_answers.specs.Answers.{answer_bits, check_bits};
ghost use Rattle.session_answers.specs.Replies.{call_answer};

use clock::{Cycle, Ran};
use file_lines::Refusal;
use std::array::TryFromSliceError;

// The refusals of the session's calls (01, Refusals): 40, 44, 41, 42 and 43, with what they return.
#[derive(Clone, Copy, Debug, PartialEq, Eq)]
pub enum CallRefusal {
    WrongLength,
    OutOfRange,
    NoSuchSignal(u32),
    NoSuchValue(u32),
    TooManyCycles(Cycle),
}

impl Refusal for CallRefusal {
    ghost use Rattle.session_answers.specs.Refusals.{call_refusal};

    ghost refusal = { call_refusal };

    fn told(self) -> (u8, u32) {
        match self {
            CallRefusal::WrongLength => (40, 0),
            CallRefusal::OutOfRange => (44, 0),
            CallRefusal::NoSuchSignal(signal) => (41, signal),
            CallRefusal::NoSuchValue(given) => (42, given),
            CallRefusal::TooManyCycles(finished) => (43, u32::from(finished.0)),
        }
    }
}

// A buffer lent with another length than its fixed one. Each type of refusals has an impl of its own, since `?` asks for one.
impl From<TryFromSliceError> for CallRefusal {
    ghost use Rattle.session_answers.specs.declared.CallRefusal.TheVariants.{WrongLength};

    ghost from_gives = { λ _ refusal. refusal ≡ WrongLength };

    fn from(_error: TryFromSliceError) -> CallRefusal {
        CallRefusal::WrongLength
    }
}

// The refusal of a recorded value (02, tickets 7 and 1): 42, which returns it.
#[derive(Clone, Copy, Debug, PartialEq, Eq)]
pub struct NoSuchValue(pub u8);

impl Refusal for NoSuchValue {
    ghost use Rattle.session_answers.specs.Refusals.{recorded_refusal};

    ghost refusal = { recorded_refusal };

    fn told(self) -> (u8, u32) {
        (42, u32::from(self.0))
    }
}

// The first recorded value above 3.
pub fn check_recorded(values: &[u8]) -> Result<(), NoSuchValue>
    ensures { Answers recorded_refusal (tt {0}) (recorded_checks values.now) result }
{
    for &value in values {
        if 3 < value {
            return Err(NoSuchValue(value));
        }
    }
    Ok(())
}

// What a call replies that is not refused: that it is done, the value read, or the cycles of a run and whether it stopped.
#[derive(Clone, Copy, Debug, PartialEq, Eq)]
pub enum Reply {
    Done,
    Value(u8),
    Ran(Ran),
}

pub type CallAnswer = Result<Reply, CallRefusal>;

// A refusal's number in bits 56 to 63, and what it returns in bits 0 to 31.
#[tactic(auto, unfolding(crate::specs::Answers::answer_bits))]
pub fn refusal_bits(number: u8, returned: u32) -> u64
    ensures { result ≡ answer_bits (refused number returned) }
{
    (u64::from(number) << 56) + u64::from(returned)
}

// The bits of a refusal of any kind.
#[tactic(auto, unfolding(crate::specs::Answers::check_bits))]
fn refused_bits<R: Refusal>(refusal: R) -> u64
    ensures { result ≡ check_bits (R.refusal refusal) }
{
    let (number, returned) = refusal.told();
    refusal_bits(number, returned)
}

// The 64 bits of a check's answer: 0 where it passes, else its refusal.
#[tactic(auto, unfolding(crate::specs::Answers::check_bits, crate::specs::Answers::answer_bits))]
pub fn check_bits<R: Refusal>(answer: Result<(), R>) -> u64
    ensures { result ≡ check_bits (answered R.refusal answer) }
{
    match answer {
        Ok(()) => 0,
        Err(refusal) => refused_bits(refusal),
    }
}

// The 64 bits of a session call's answer. A run has its cycles in bits 0 to 15, and in bit 16 whether it stopped.
#[tactic(auto, unfolding(crate::specs::Answers::check_bits, crate::specs::Answers::answer_bits))]
pub fn answer_bits(answer: CallAnswer) -> u64
    ensures { result ≡ answer_bits (call_answer answer) }
{
    match answer {
        Ok(Reply::Done) => 0,
        Ok(Reply::Value(value)) => u64::from(value),
        Ok(Reply::Ran(ran)) => u64::from(ran.done.0) + 65536 * u64::from(ran.stopped),
        Err(refusal) => refused_bits(refusal),
    }
}
