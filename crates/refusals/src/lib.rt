// Why a line, a call or a cube is turned down.
#![tactic(auto)]

ghost use Rattle.std.specs.Prelude.{◌≡◌};
ghost use Rattle.refusals.specs.Numbers.{number_of};

mod gather;
mod handed_back;

pub use gather::{Gathers, gathered};
pub use handed_back::HandedBack;
use std::error::Error;
use std::fmt;

// The reasons with their numbers. Other crates match single reasons only, so that one more can be added.
#[derive(Clone, Copy, PartialEq, Eq, Debug)]
pub enum Refusal {
    LineTooLong = 1,
    StrayByte = 2,
    NoRecordWord = 3,
    FieldCount = 4,
    MalformedField = 5,
    OutOfPlace = 6,
    OutOfRange = 7,
    Repeated = 8,
    TooMany = 9,
    EmptyCube = 10,
    Conflict = 11,
    CounterAhead = 12,
    MemoryTooShort = 13,
    NoCycleLeft = 14,
    CyclesLeft = 15,
}

impl Refusal {
    // The number under which the refusal is told.
    pub fn number(self) -> u8
        ensures { result ≡ number_of self }
    {
        self as u8
    }
}

// What the refusal says in words.
impl fmt::Display for Refusal {
    fn fmt<W: fmt::Write>(&self, f: &mut fmt::Formatter<W>) -> fmt::Result {
        f.write_str(match self {
            Refusal::LineTooLong => "a line exceeds 320 bytes",
            Refusal::StrayByte => "a byte is neither a tab nor a printing character",
            Refusal::NoRecordWord => "the first field is no record word",
            Refusal::FieldCount => "a record has too few or too many fields",
            Refusal::MalformedField =>
                "a field is empty, or not the number, name, kind or digits of its record",
            Refusal::OutOfPlace =>
                "a record is out of its place, or the file ends before its frame",
            Refusal::OutOfRange =>
                "a number or a count is outside its limits or out of turn, or a link goes to the next cell",
            Refusal::Repeated => "a link, a tap or an outlet of a set is given again",
            Refusal::TooMany =>
                "there is a 17th link, an injection of more than 256 bits, or more than 56 chains to compact",
            Refusal::EmptyCube => "the cube specifies no bit",
            Refusal::Conflict => "no injection loads this bit together with the bits that stand",
            Refusal::CounterAhead => "the counter exceeds the equations written in the table",
            Refusal::MemoryTooShort => "the memory handed over is too short",
            Refusal::NoCycleLeft => "no cycle is left",
            Refusal::CyclesLeft => "cycles are left",
        })
    }
}

impl Error for Refusal {}
