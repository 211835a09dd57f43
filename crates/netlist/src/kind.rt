ghost use Rattle.netlist.specs.Kind.{Decodes};

// What a signal is: an input, a unit-delay gate or a rank-order gate.
#[derive(Clone, Copy, Debug, PartialEq, Eq)]
pub enum Kind {
    Input,
    UnitDelay,
    RankOrder,
}

// A number that names no kind.
#[derive(Clone, Copy, Debug, PartialEq, Eq)]
pub struct UnknownKind(pub u16);

impl TryFrom<u16> for Kind {
    type Error = UnknownKind;

    ghost try_from_gives = { Decodes };

    fn try_from(number: u16) -> Result<Self, UnknownKind> {
        match number {
            1 => Ok(Kind::Input),
            2 => Ok(Kind::UnitDelay),
            3 => Ok(Kind::RankOrder),
            _ => Err(UnknownKind(number)),
        }
    }
}
