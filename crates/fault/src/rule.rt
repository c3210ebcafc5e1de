// The rules that a refusal can name.
ghost use Rattle.std.specs.Prelude.{◌≡◌};
ghost use Rattle.fault.specs.Rules.{layer_of, number_of, refused};

use crate::{Fault, Layer};

// Every rule that something can be refused by, in the order of their numbers.
#[derive(Clone, Copy, PartialEq, Eq, Debug)]
pub enum Rule {
    // a table file has its whole header
    HeaderBytes = 1,
    // it begins with its letters
    FileMark = 2,
    // it is of the version that is read
    FileVersion = 3,
    // it has a horizon that there is
    FileHorizon = 4,
    // it is as long as its horizon says
    FileLength = 5,
    // each entry keeps its table's limits
    EntryLimits = 6,
    // each entry on the generator's diagonal is positive
    PositiveDiagonal = 7,
    // a file fits in the buffer that it is written to
    FileBuffer = 8,
    // a listed leg has two to five levels, and a mask for each
    LevelCount = 11,
    // its levels rise, within their limits
    RisingLevels = 12,
    // its masks permit holding, and name positions that there are
    HoldingMasks = 13,
    // it rests in a position that there is
    RestPosition = 14,
    // a stepped leg has a reach that there is
    LegReach = 15,
    // and a stride that there is
    LegStride = 16,
    // no order is open
    NoOpenOrder = 21,
    // tables are loaded
    LoadedTables = 22,
    // the limit of nodes is one that there is
    NodeLimit = 23,
    // the phase is one of three
    PhaseNumber = 24,
    // each current and reference keeps within its range
    InputRange = 25,
    // there are references for every stage
    ReferenceCount = 26,
    // the order is one of this controller
    OwnOrder = 27,
    // an order is open
    OpenOrder = 28,
    // a real number is finite
    FiniteNumber = 31,
    // a number of counts keeps its table's limits
    CountLimits = 32,
    // a line begins with a command
    CommandWord = 41,
    // a phase is named by its letter
    PhaseLetter = 42,
    // a number is written as numbers are
    NumberWord = 43,
    // a line has the words that its command takes, and no more
    WordCount = 44,
    // the buffer has room for any answer
    AnswerBuffer = 45,
    // a line keeps its length
    LineLength = 46,
}

impl Rule {
    // All of them, in the order of their numbers.
    pub const ALL: [Rule; 30] = [
        Rule::HeaderBytes,
        Rule::FileMark,
        Rule::FileVersion,
        Rule::FileHorizon,
        Rule::FileLength,
        Rule::EntryLimits,
        Rule::PositiveDiagonal,
        Rule::FileBuffer,
        Rule::LevelCount,
        Rule::RisingLevels,
        Rule::HoldingMasks,
        Rule::RestPosition,
        Rule::LegReach,
        Rule::LegStride,
        Rule::NoOpenOrder,
        Rule::LoadedTables,
        Rule::NodeLimit,
        Rule::PhaseNumber,
        Rule::InputRange,
        Rule::ReferenceCount,
        Rule::OwnOrder,
        Rule::OpenOrder,
        Rule::FiniteNumber,
        Rule::CountLimits,
        Rule::CommandWord,
        Rule::PhaseLetter,
        Rule::NumberWord,
        Rule::WordCount,
        Rule::AnswerBuffer,
        Rule::LineLength,
    ];

    // The layer that the rule is one of.
    pub fn layer(self) -> Layer
        ensures { result ≡ layer_of self }
    {
        match self {
            Rule::HeaderBytes
            | Rule::FileMark
            | Rule::FileVersion
            | Rule::FileHorizon
            | Rule::FileLength
            | Rule::EntryLimits
            | Rule::PositiveDiagonal
            | Rule::FileBuffer => Layer::File,
            Rule::LevelCount
            | Rule::RisingLevels
            | Rule::HoldingMasks
            | Rule::RestPosition
            | Rule::LegReach
            | Rule::LegStride => Layer::Leg,
            Rule::NoOpenOrder
            | Rule::LoadedTables
            | Rule::NodeLimit
            | Rule::PhaseNumber
            | Rule::InputRange
            | Rule::ReferenceCount
            | Rule::OwnOrder
            | Rule::OpenOrder => Layer::Controller,
            Rule::FiniteNumber | Rule::CountLimits => Layer::Quantiser,
            Rule::CommandWord
            | Rule::PhaseLetter
            | Rule::NumberWord
            | Rule::WordCount
            | Rule::AnswerBuffer
            | Rule::LineLength => Layer::Console,
        }
    }

    // The number that the rule goes by.
    pub fn number(self) -> u8
        ensures { result ≡ number_of self }
    {
        self as u8
    }

    // The refusal by this rule, at a place.
    pub fn at(self, place: usize) -> Fault
        ensures { result ≡ refused self place }
    {
        Fault {
            layer: self.layer(),
            number: self.number(),
            place,
        }
    }
}

// A refusal that says nothing of a place has place 0.
impl From<Rule> for Fault {
    ghost from_gives = { λ rule fault. fault ≡ refused rule 0 };

    fn from(rule: Rule) -> Fault {
        rule.at(0)
    }
}
