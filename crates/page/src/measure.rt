// The measure: the width that rows are set to.
ghost use Rattle.std.specs.Prelude.{◌≡◌, ℕ, MatchResult};
ghost use Rattle.page.specs.Measures.{Measures};

use std::marker::Model;

// No measure exists outside 1 to 60,000, so that whoever is given one need not look.
#[derive(Clone, Copy)]
pub struct Measure {
    units: u32,
}

// Clauses see the number of units.
impl Model for Measure {
    ghost Value = { ℕ };

    ghost view = { λ m. m.units };

    ghost invariant = { λ m. Measures m.units };

    ghost inverse = { λ w. record { units = w } };
}

// A measure outside 1 to 60,000 was asked for.
#[derive(Clone, Copy, Debug)]
pub struct NoSuchMeasure;

impl NoSuchMeasure {
    pub fn number(self) -> u8
        ensures { result ≡ 6 }
    {
        6
    }
}

impl Measure {
    pub fn new(units: u32) -> Result<Measure, NoSuchMeasure>
        ensures { MatchResult result (λ m. Measures units × (m ≡ units)) (λ _. Measures units → ⊥) }
    {
        match units {
            1..=60_000 => Ok(Measure { units }),
            _ => Err(NoSuchMeasure),
        }
    }

    pub fn units(self) -> u32
        ensures value { result ≡ self }
        ensures range { Measures result }
    {
        self.units
    }
}
