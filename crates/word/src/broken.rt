ghost use Rattle.std.specs.Prelude.{Some};
ghost use Rattle.word.specs.Text.{broken_text};

use std::error::Error;
use std::fmt;

// A rule of a sheet that is broken: sides first, then places, each with its values.
#[derive(Clone, Copy, PartialEq, Eq, Debug)]
pub enum Broken {
    // The flows of a side.
    Side(u32),
    // A place, and the value that would be cheaper there with flows counted.
    Place { place: u32, value: u32 },
}

impl fmt::Display for Broken {
    ghost output = { λ b. Some (broken_text b) };

    fn fmt<W: fmt::Write>(&self, f: &mut fmt::Formatter<W>) -> fmt::Result {
        match self {
            Broken::Side(side) => write!(f, "side {side}"),
            Broken::Place { place, value } => write!(f, "place {place} value {value}"),
        }
    }
}

impl Error for Broken {}
