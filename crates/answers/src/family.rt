ghost use Rattle.std.specs.Prelude.{◌≡◌};
ghost use Rattle.answers.specs.FamilyNumbers.{number_of, Numbers};

use crate::refusal::Refusal;

// A family of prefix networks, with its number.
#[derive(Clone, Copy, Debug, PartialEq, Eq, Hash)]
pub enum Family {
    Sklansky = 1,
    KoggeStone = 2,
    BrentKung = 3,
    HanCarlson = 4,
}

impl Family {
    pub fn number(self) -> usize
        ensures { result ≡ number_of self }
    {
        self as usize
    }
}

// The family of a number, if it is 1 to 4.
impl TryFrom<usize> for Family {
    type Error = Refusal;

    ghost try_from_gives = { Numbers };

    fn try_from(number: usize) -> Result<Family, Refusal> {
        match number {
            1 => Ok(Family::Sklansky),
            2 => Ok(Family::KoggeStone),
            3 => Ok(Family::BrentKung),
            4 => Ok(Family::HanCarlson),
            _ => Err(Refusal::NoFamily(number)),
        }
    }
}
