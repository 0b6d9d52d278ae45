// Why a call is refused: each reason has its number.
ghost use Rattle.std.specs.Prelude.{◌≡◌};
ghost use Rattle.table_block.specs.Refusals.{number};

use std::error::Error;
use std::fmt;

#[derive(Clone, Copy, Debug, PartialEq, Eq, Drop)]
pub enum Refusal {
    Options = 1,
    Short = 2,
    Limits = 3,
    Order = 4,
    Full = 5,
    Finished = 6,
    NoTable = 7,
    Outside = 8,
    Checksum = 9,
    Malformed = 10,
    Unordered = 11,
    Filter = 12,
    NoPlace = 14,
}

impl Refusal {
    // Its number.
    pub fn number(self) -> u32
        ensures { result ≡ number self }
    {
        self as u32
    }
}

impl fmt::Display for Refusal {
    ghost use Rattle.std.specs.Prelude.{Some};
    ghost use Rattle.table_block.specs.Refusals.{sentence};

    ghost output = { λ why. Some (sentence why) };

    fn fmt<W: fmt::Write>(&self, f: &mut fmt::Formatter<W>) -> fmt::Result {
        f.write_str(match self {
            Refusal::Options => "an option is outside its limits",
            Refusal::Short => "a lent run is too short",
            Refusal::Limits => "key, value, edition or kind is outside its limits",
            Refusal::Order => "the key is not above the last one",
            Refusal::Full => "the table would not fit",
            Refusal::Finished => "the table is finished",
            Refusal::NoTable => "it is too short or too long, or does not end as a table does",
            Refusal::Outside => "a block would not lie inside it",
            Refusal::Checksum => "a block is not what its checksum says",
            Refusal::Malformed => "a block is malformed",
            Refusal::Unordered => "keys are out of order",
            Refusal::Filter => "the filter is malformed or denies an entry",
            Refusal::NoPlace => "no entry starts at the place",
        })
    }
}

impl Error for Refusal {}
