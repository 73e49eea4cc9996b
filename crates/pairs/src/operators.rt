// Operators: a number from 0 to 15, whose bit of weight 1, 2, 4 or 8 is the answer for the bits (0,0), (0,1), (1,0) or (1,1).

ghost use Rattle.std.specs.Prelude.{◌≡◌};
ghost use Rattle.pairs.specs.Pairs.{answer};
ghost use Rattle.pairs.specs.Operators.{number_of, Named};

/// The operators by name, each with its number.
#[derive(Clone, Copy, PartialEq, Eq)]
pub enum Operator {
    /// No, whatever the two are.
    Never = 0,
    /// Neither of the two.
    Neither = 1,
    /// The right one and not the left.
    OnlyRight = 2,
    /// Not the left one.
    NotLeft = 3,
    /// The left one and not the right.
    OnlyLeft = 4,
    /// Not the right one.
    NotRight = 5,
    /// Just one of the two.
    Differ = 6,
    /// Not both.
    NotBoth = 7,
    /// Both.
    Both = 8,
    /// Both or neither.
    Agree = 9,
    /// The right one.
    Right = 10,
    /// If the left one, then the right.
    LeftImplies = 11,
    /// The left one.
    Left = 12,
    /// If the right one, then the left.
    RightImplies = 13,
    /// At least one of the two.
    Either = 14,
    /// Yes, whatever the two are.
    Always = 15,
}

/// A number that is no operator's: it is over 15.
#[derive(Clone, Copy, PartialEq, Eq)]
pub struct NoOperator {
    pub number: u8,
}

impl From<Operator> for u8 {
    ghost from_gives = { λ operator number. number ≡ number_of operator };

    fn from(operator: Operator) -> u8 {
        operator as u8
    }
}

// Number by number: a number becomes a variant in no other way.
impl TryFrom<u8> for Operator {
    type Error = NoOperator;

    ghost try_from_gives = { Named };

    fn try_from(number: u8) -> Result<Operator, NoOperator> {
        match number {
            0 => Ok(Operator::Never),
            1 => Ok(Operator::Neither),
            2 => Ok(Operator::OnlyRight),
            3 => Ok(Operator::NotLeft),
            4 => Ok(Operator::OnlyLeft),
            5 => Ok(Operator::NotRight),
            6 => Ok(Operator::Differ),
            7 => Ok(Operator::NotBoth),
            8 => Ok(Operator::Both),
            9 => Ok(Operator::Agree),
            10 => Ok(Operator::Right),
            11 => Ok(Operator::LeftImplies),
            12 => Ok(Operator::Left),
            13 => Ok(Operator::RightImplies),
            14 => Ok(Operator::Either),
            15 => Ok(Operator::Always),
            _ => Err(NoOperator { number }),
        }
    }
}

/// The operator's answer of two bits. It takes the number, whose bits are the answers.
// The number, and no `Operator`: the clause holds of every number, and a narrower argument would ask more of callers.
pub fn answer(operator: u8, left: bool, right: bool) -> bool
    ensures { result ≡ answer operator left right }
{
    match (left, right) {
        (false, false) => operator % 2 == 1,
        (false, true) => operator / 2 % 2 == 1,
        (true, false) => operator / 4 % 2 == 1,
        (true, true) => operator / 8 % 2 == 1,
    }
}
