ghost use Rattle.std.specs.Prelude.{◌≡◌, Some};
ghost use Rattle.word.specs.declared.objection.Objection.TheVariants.{Broken as OfBroken, Refused, NoMemory};
ghost use Rattle.word.specs.Text.{objection_text};

use super::broken::Broken;
use super::refusal::Refusal;
use std::alloc::AllocError;
use std::error::Error;
use std::fmt;

// Why the checker does not accept a picture and flows. Not made of `Unsolved`: a refusal would be no plainer two cases deep.
#[derive(Clone, Copy, PartialEq, Eq, Debug)]
pub enum Objection {
    // The first rule of a sheet that is broken.
    Broken(Broken),
    // The lent numbers are turned away.
    Refused(Refusal),
    // There was no memory for a number for each place.
    NoMemory,
}

impl From<Broken> for Objection {
    ghost from_gives = { λ b o. o ≡ OfBroken b };

    fn from(rule: Broken) -> Self {
        Self::Broken(rule)
    }
}

impl From<Refusal> for Objection {
    ghost from_gives = { λ e o. o ≡ Refused e };

    fn from(refusal: Refusal) -> Self {
        Self::Refused(refusal)
    }
}

impl From<AllocError> for Objection {
    ghost from_gives = { λ _ o. o ≡ NoMemory };

    fn from(_error: AllocError) -> Self {
        Self::NoMemory
    }
}

impl fmt::Display for Objection {
    ghost output = { λ o. Some (objection_text o) };

    fn fmt<W: fmt::Write>(&self, f: &mut fmt::Formatter<W>) -> fmt::Result {
        match self {
            Objection::Broken(broken) => write!(f, "{broken}"),
            Objection::Refused(refusal) => write!(f, "{refusal}"),
            Objection::NoMemory => f.write_str("no memory"),
        }
    }
}

impl Error for Objection {}
