// "A location named by a table line has a part and a number" (01, One cycle of the machine).

#![tactic(auto)]

ghost use Rattle.std.specs.Prelude.{◌≡◌};
ghost use Rattle.instruction.specs.Operand.{operand_of, location_of};
ghost use Rattle.instruction.specs.Sender.{sender_laid, sender_numbered};

// "The processor received from (99: none)".
const NO_SENDER: u8 = 99;

// What a pair of a table line names: a location of one of the four parts, in the order of their numbers, or none. None keeps the
// pair's location, so that the location of an operand is read without asking which one it is.
#[derive(Clone, Copy, Debug, PartialEq, Eq)]
pub enum Operand {
    LocalEarlier(u8),
    LocalPresent(u8),
    SwitchEarlier(u8),
    SwitchPresent(u8),
    None(u8),
}

impl Operand {
    // The location of its pair, which none has too.
    pub fn location(self) -> u8
        ensures { result ≡ location_of self }
    {
        match self {
            Operand::LocalEarlier(k)
            | Operand::LocalPresent(k)
            | Operand::SwitchEarlier(k)
            | Operand::SwitchPresent(k)
            | Operand::None(k) => k,
        }
    }
}

// A table line as it is executed: its signal (0: empty slot), what its operands and its send name, and the processor that it receives
// from, if any. The operands have names, as in `gate`, and are no array: definitions would read an array with an operand that stands for
// those it has not, and with one a slot of a small table took 4 % longer.
#[derive(Clone, Copy)]
pub struct Instruction {
    pub signal: u16,
    pub a1: Operand,
    pub a2: Operand,
    pub a3: Operand,
    pub a4: Operand,
    pub send: Operand,
    pub sender: Option<u8>,
}

// The operand that a pair names. A part that has no location, as 9, names none.
#[tactic(auto, using(logic::proofs::Tests::decided), unfolding(crate::specs::Operand::operand_of))]
pub fn operand_of(part: u16, location: u8) -> Operand
    ensures { result ≡ operand_of part location }
{
    match part {
        0 => Operand::LocalEarlier(location),
        1 => Operand::LocalPresent(location),
        2 => Operand::SwitchEarlier(location),
        3 => Operand::SwitchPresent(location),
        _ => Operand::None(location),
    }
}

// The processor that a line receives from, by its number.
pub fn sender_numbered(number: u8) -> Option<u8>
    ensures { result ≡ sender_numbered number }
{
    (number != NO_SENDER).then_some(number)
}

// "processors below P", or none. The number is judged here, and so is no `Option` yet.
#[tactic(auto, using(crate::proofs::Senders::below, crate::proofs::Senders::other))]
pub fn sender_right(sender: u16, processors: u16) -> bool
    ensures { result ≡ sender_laid processors sender }
{
    sender < processors || sender == u16::from(NO_SENDER)
}
