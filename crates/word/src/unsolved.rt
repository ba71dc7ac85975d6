ghost use Rattle.std.specs.Prelude.{◌≡◌, Some};
ghost use Rattle.word.specs.declared.unsolved.Unsolved.TheVariants.{Refused, NoMemory};
ghost use Rattle.word.specs.Text.{unsolved_text};

use super::refusal::Refusal;
use std::alloc::AllocError;
use std::error::Error;
use std::fmt;

// Why no picture is found; nothing lent is changed.
#[derive(Clone, Copy, PartialEq, Eq, Debug)]
pub enum Unsolved {
    // The lent numbers are turned away.
    Refused(Refusal),
    // There was no memory to work in.
    NoMemory,
}

impl From<Refusal> for Unsolved {
    ghost from_gives = { λ e o. o ≡ Refused e };

    fn from(refusal: Refusal) -> Self {
        Self::Refused(refusal)
    }
}

impl From<AllocError> for Unsolved {
    ghost from_gives = { λ _ o. o ≡ NoMemory };

    fn from(_error: AllocError) -> Self {
        Self::NoMemory
    }
}

impl fmt::Display for Unsolved {
    ghost output = { λ o. Some (unsolved_text o) };

    fn fmt<W: fmt::Write>(&self, f: &mut fmt::Formatter<W>) -> fmt::Result {
        match self {
            Unsolved::Refused(refusal) => write!(f, "{refusal}"),
            Unsolved::NoMemory => f.write_str("no memory"),
        }
    }
}

impl Error for Unsolved {}
