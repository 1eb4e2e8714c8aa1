// What is refused, each case with the number that the calls answer by.
#![tactic(auto)]

ghost use Rattle.std.specs.Prelude.{◌≡◌};
ghost use Rattle.refusal.specs.Number.{number_of, numbered};

#[derive(Clone, Copy, Debug, Drop, PartialEq, Eq)]
pub enum Refusal {
    Frame = 11,
    Version = 12,
    Size = 13,
    Entry = 14,
    Mirror = 15,
    Magnitude = 16,
    Rank = 17,
    Rule = 18,
    Search = 19,
    Index = 20,
    Pin = 21,
    Block = 22,
    Range = 23,
    Walk = 24,
    TurnSweeps = 25,
    TurnRuns = 26,
    Present = 27,
    Moves = 28,
    Slice = 31,
    Stage = 32,
    Record = 33,
}

impl Refusal {
    // The number that C sees; `as` is the one way from a case to its number.
    pub fn number(self) -> u8
        ensures { result ≡ number_of self }
    {
        self as u8
    }
}

// The number that a call answers, 0 where nothing is refused.
pub fn number_in(answer: Result<(), Refusal>) -> u8
    ensures { result ≡ numbered answer }
{
    match answer {
        Ok(()) => 0,
        Err(refusal) => refusal.number(),
    }
}
