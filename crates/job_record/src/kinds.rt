// The step rule and the kind of start of an accepted job: which of 01's each is. Each from its code by a function, not TryFrom: the code was judged (18, 19), so
// that there is no error to answer. A rule stands without its number, unlike `StepRule`: rule 3 has a number in the record too, and `job_of` keeps it.
// `as u8` is the number that stands beside each: a derive gives none.
ghost use Rattle.std.specs.Prelude.{◌≡◌, ◌≤◌};
ghost use Rattle.limits.specs.Limits.{last_rule, last_start};
ghost use Rattle.job_record.specs.Kinds.{rule_code, start_code};

#[derive(Clone, Copy)]
pub enum Rule {
    Grad = 0,
    GradAdv = 1,
    Coord = 2,
    CoordNoStep = 3,
    CoordMomentum = 4,
}

// Rows; rows whose rank must be given; signs, which draws may follow.
#[derive(Clone, Copy)]
pub enum Start {
    Rows = 0,
    Ranked = 1,
    Signs = 2,
}

impl Rule {
    // The rule of a code that was judged.
    pub(crate) fn of(code: u64) -> Rule
        requires { code ≤ last_rule }
        ensures { rule_code result ≡ code }
    {
        match code {
            0 => Rule::Grad,
            1 => Rule::GradAdv,
            2 => Rule::Coord,
            3 => Rule::CoordNoStep,
            _ => Rule::CoordMomentum,
        }
    }

    // Its code, as an open takes it.
    pub fn code(self) -> u8
        ensures { result ≡ rule_code self }
    {
        self as u8
    }
}

impl Start {
    // The kind of a code that was judged.
    pub(crate) fn of(code: u64) -> Start
        requires { code ≤ last_start }
        ensures { start_code result ≡ code }
    {
        match code {
            0 => Start::Rows,
            1 => Start::Ranked,
            _ => Start::Signs,
        }
    }

    // Its code, as an open takes it.
    pub fn code(self) -> u8
        ensures { result ≡ start_code self }
    {
        self as u8
    }
}
