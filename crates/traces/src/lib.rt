// Traces turned by signal (02, ticket 7): the values of one signal in up to 64 cycles, a byte each, into a block of 16 bytes, and back.
// `cavundir_panel_c` exports the two calls for C.

#![tactic(auto)]

ghost use Rattle.std.specs.Prelude.{◌≡◌, ◌<◌, ◌≤◌, get_or, IfOk, length};
ghost use Rattle.file_lines.specs.Answer.{Answers};
ghost use Rattle.session_answers.specs.Answers.{check_bits};
ghost use Rattle.session_answers.specs.Leaves.{Leaves};
ghost use Rattle.session_answers.specs.Left.{left_after};
ghost use Rattle.traces.specs.Bits.{bit, bits};
ghost use Rattle.traces.specs.Turned.{most_cycles, values_length, turned, block_value, value_back, turned_back};
ghost use Rattle.traces.specs.Checks.{count_check, unused_check, turn_check, turn_back_check};
ghost use Rattle.traces.specs.Answer.{turn_refusal};

use file_lines::Refusal;
use session_answers::NoSuchValue;
use std::array::{self, TryFromSliceError};

// The lengths of the two buffers, a byte and two bits for each cycle, and the most cycles of a block.
const VALUES_BYTES: usize = 64;

const BLOCK_BYTES: usize = 16;

const MOST_CYCLES: u32 = 64;

// The refusals of both calls: 40, 52 for a count or an unused bit, 42.
#[derive(Clone, Copy, Debug, PartialEq, Eq)]
pub enum TurnRefusal {
    WrongLength,
    WrongCount,
    UnusedBit,
    NoSuchValue(u8),
}

impl Refusal for TurnRefusal {
    ghost use Rattle.traces.specs.Answer.{turn_refusal};

    ghost refusal = { turn_refusal };

    fn told(self) -> (u8, u32) {
        match self {
            TurnRefusal::WrongLength => (40, 0),
            TurnRefusal::WrongCount | TurnRefusal::UnusedBit => (52, 0),
            TurnRefusal::NoSuchValue(value) => (42, u32::from(value)),
        }
    }
}

// A buffer lent with another length than its fixed one. Each type of refusals has an impl of its own, since `?` asks for one.
impl From<TryFromSliceError> for TurnRefusal {
    ghost use Rattle.traces.specs.declared.TurnRefusal.TheVariants.{WrongLength};

    ghost from_gives = { λ _ refusal. refusal ≡ WrongLength };

    fn from(_error: TryFromSliceError) -> TurnRefusal {
        TurnRefusal::WrongLength
    }
}

impl From<NoSuchValue> for TurnRefusal {
    ghost use Rattle.traces.specs.declared.TurnRefusal.TheVariants.{NoSuchValue};

    ghost from_gives = { λ error refusal. refusal ≡ NoSuchValue error.0 };

    fn from(error: NoSuchValue) -> TurnRefusal {
        TurnRefusal::NoSuchValue(error.0)
    }
}

// The cycles that a block is to have: 1 to 64.
// By `as`, in this file, where the bound is proved: no `From` has this conversion, and `TryFrom` has an error that cannot happen.
fn cycles_of(count: u32) -> Result<usize, TurnRefusal>
    ensures answers { Answers turn_refusal count (count_check count) result }
    ensures at_most { IfOk result (λ cycles. cycles ≤ most_cycles) }
{
    if !(1..=MOST_CYCLES).contains(&count) {
        return Err(TurnRefusal::WrongCount);
    }
    Ok(count as usize)
}

// A bit of a byte.
#[tactic(auto, using(crate::proofs::Bits::bit_weight))]
fn bit_at(byte: u8, i: usize) -> u8
    requires { i < 8 }
    ensures { (result ≡ bit byte i) × (result < 2) }
{
    (byte >> i) % 2
}

// One half of a block as a number: bit `half` of each value, the low one or the high one, the earliest cycle lowest. From the last cycle
// to the first, what is there is doubled, by a shift, which cannot overflow, and the cycle's bit is added: shifted to its place, each bit
// takes longer. That the cycles are at most 64 is asked, here and below, as the bound of an index is.
fn turned_half(values: &[u8], half: usize) -> u64
    requires { (length values.now ≤ most_cycles) × (half < 2) }
    ensures { result ≡ bits (λ c. bit (get_or values.now c 0) half) (length values.now) }
{
    values.iter().rev().fold(
        0,
        |number, &value| (number << 1) + u64::from(bit_at(value, half)),
    )
}

// The block of these values, one a cycle.
fn turn_all(values: &[u8], block: &mut [u8; BLOCK_BYTES])
    requires { length values.now ≤ most_cycles }
    ensures { block.new ≡ turned values.now (length values.now) }
{
    let low = turned_half(values, 0);
    let high = turned_half(values, 1);
    block[..8].copy_from_slice(&low.to_le_bytes());
    block[8..].copy_from_slice(&high.to_le_bytes());
}

// Turns the values into a block, or refuses and changes no byte of it.
fn turn_checked(values: &[u8], block: &mut [u8], count: u32) -> Result<(), TurnRefusal>
    ensures { Leaves turn_refusal (turn_check values.now block.old count) (turned values.now count) block.old result block.new }
{
    let values: &[u8; VALUES_BYTES] = values.try_into()?;
    // `as_mut_array` says, as `try_into` does not, what the slice holds in the end.
    let block = block.as_mut_array().ok_or(TurnRefusal::WrongLength)?;
    let count = cycles_of(count)?;
    let recorded = &values[..count];
    session_answers::check_recorded(recorded)?;
    turn_all(recorded, block);
    Ok(())
}

// Turns the values of one signal into a block. Refused by 40, 52, 42, and then no byte of the block changes. Turning and turning back
// share the test of the count; what they judge after it, and what they fill, differs. Values, block and count stay three parameters, no
// struct: C lends one of the two buffers to be read and the other to be written, and turning back lends them the other way round.
pub fn turn(values: &[u8], block: &mut [u8], count: u32) -> u64
    ensures answer { result ≡ check_bits (turn_check values.now block.old count) }
    ensures block { block.new ≡ left_after (turn_check values.now block.old count) (turned values.now count) block.old }
{
    session_answers::check_bits(turn_checked(values, block, count))
}

// The value that a block has for a cycle.
#[tactic(auto, unfolding(crate::specs::Turned::block_value))]
fn block_value(block: &[u8; BLOCK_BYTES], cycle: usize) -> u8
    requires { cycle < values_length }
    ensures { result ≡ block_value block.now cycle }
{
    let low = bit_at(block[cycle / 8], cycle % 8);
    let high = bit_at(block[8 + cycle / 8], cycle % 8);
    low + 2 * high
}

// No bit past the count may be set.
fn check_unused(block: &[u8; BLOCK_BYTES], count: usize) -> Result<(), TurnRefusal>
    ensures { Answers turn_refusal (tt {0}) (unused_check block.now count) result }
{
    if (count..VALUES_BYTES).all(|c| block_value(block, c) == 0) {
        return Ok(());
    }
    Err(TurnRefusal::UnusedBit)
}

// All values of a block: those of the cycles within the count, and 0 past it.
fn turn_back_all(block: &[u8; BLOCK_BYTES], count: usize, values: &mut [u8; VALUES_BYTES])
    ensures { values.new ≡ turned_back block.now count }
{
    *values = array::from_fn(|cycle| value_back(block, count, cycle));
}

// The value of a cycle within the count, and 0 past it.
#[tactic(auto, unfolding(crate::specs::Turned::value_back))]
fn value_back(block: &[u8; BLOCK_BYTES], count: usize, cycle: usize) -> u8
    requires { cycle < values_length }
    ensures { result ≡ value_back block.now count cycle }
{
    if cycle < count {
        return block_value(block, cycle);
    }
    0
}

// Turns a block back into the values, or refuses and changes no byte of them.
fn turn_back_checked(block: &[u8], values: &mut [u8], count: u32) -> Result<(), TurnRefusal>
    ensures { Leaves turn_refusal (turn_back_check block.now values.old count) (turned_back block.now count) values.old result values.new }
{
    let block: &[u8; BLOCK_BYTES] = block.try_into()?;
    let values = values.as_mut_array().ok_or(TurnRefusal::WrongLength)?;
    let count = cycles_of(count)?;
    check_unused(block, count)?;
    turn_back_all(block, count, values);
    Ok(())
}

// Turns a block back into the values of one signal. Refused by 40, 52, and then no byte of the values changes.
pub fn turn_back(block: &[u8], values: &mut [u8], count: u32) -> u64
    ensures answer { result ≡ check_bits (turn_back_check block.now values.old count) }
    ensures values { values.new ≡ left_after (turn_back_check block.now values.old count) (turned_back block.now count) values.old }
{
    session_answers::check_bits(turn_back_checked(block, values, count))
}
