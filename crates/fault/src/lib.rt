// Refusals: which layer turned something down, by which rule, and where.
#![tactic(auto)]

ghost use Rattle.std.specs.Prelude.{◌≡◌, ◌≢◌, Some, MatchOption};
ghost use Rattle.fault.specs.Printed.{layer_word, refusal_line};
ghost use Rattle.fault.specs.Rules.{refused};

mod rule;

pub use rule::Rule;
use std::fmt;

// The layer that a refusal comes from. Layers above pass it on unchanged.
#[derive(Clone, Copy, PartialEq, Eq, Debug)]
pub enum Layer {
    File,
    Leg,
    Controller,
    Quantiser,
    Console,
}

impl Layer {
    // The layer's word in a printed refusal.
    pub fn word(self) -> &'static str
        ensures { result.now ≡ layer_word self }
    {
        match self {
            Layer::File => "file",
            Layer::Leg => "leg",
            Layer::Controller => "controller",
            Layer::Quantiser => "quantiser",
            Layer::Console => "console",
        }
    }
}

impl fmt::Display for Layer {
    ghost output = { λ layer. Some (layer_word layer) };

    fn fmt<W: fmt::Write>(&self, f: &mut fmt::Formatter<W>) -> fmt::Result {
        f.write_str(self.word())
    }
}

// A refusal: the layer that it comes from, the number of the rule that was broken, and where it was broken: an offset, a position, a
// column or a length, as the rule says. Where the rule says nothing the place is 0, and no `None`, since 0 is what a refusal prints.
// The library makes each of its own by a `Rule`. The fields are plain, so that whoever builds on the library can refuse by numbers
// of his own.
#[derive(Clone, Copy, PartialEq, Eq, Debug)]
pub struct Fault {
    pub layer: Layer,
    pub number: u8,
    pub place: usize,
}

impl Fault {
    // The layer that it comes from.
    pub fn layer(self) -> Layer
        ensures { result ≡ self.layer }
    {
        self.layer
    }

    // The number of its rule.
    pub fn number(self) -> u8
        ensures { result ≡ self.number }
    {
        self.number
    }

    // The rule of the library's that it names, where it names one.
    pub fn rule(self) -> Option<Rule>
        ensures { MatchOption result ((rule : Rule) → refused rule self.place ≢ self) (λ rule. refused rule self.place ≡ self) }
    {
        Rule::ALL
            .iter()
            .copied()
            .find(|rule| rule.at(self.place) == self)
    }
}

impl fmt::Display for Fault {
    ghost output = { λ f. Some (refusal_line f) };

    fn fmt<W: fmt::Write>(&self, f: &mut fmt::Formatter<W>) -> fmt::Result {
        let Fault {
            layer,
            number,
            place,
        } = *self;
        write!(f, "no {layer} {number} {place}")
    }
}
