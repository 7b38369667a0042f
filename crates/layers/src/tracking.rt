// Tracking: every advance after a predecessor grows or shrinks by one amount.
ghost use Rattle.std.specs.Prelude.{◌≡◌, ℤ, MatchResult};
ghost use Rattle.layers.specs.Tracking.{TrackingRange, tracked};
ghost use Rattle.metrics.specs.Faults.{number};
ghost use Rattle.std.proofs.Common.{rules};

use metrics::fault::{MissingGlyph, OutOfRange};
use metrics::measurer::{Measurer, cut};
use std::marker::Model;

// What tracking adds, -500 to 500.
#[derive(Clone, Copy, Debug)]
pub struct TrackingUnits {
    value: i32,
}

// Clauses see the amount.
impl Model for TrackingUnits {
    ghost Value = { ℤ };

    ghost view = { λ t. t.value };

    ghost invariant = { λ t. TrackingRange t.value };

    ghost inverse = { λ v. record { value = v } };
}

impl TrackingUnits {
    pub fn new(value: i32) -> Result<TrackingUnits, OutOfRange>
        ensures { MatchResult result (λ t. TrackingRange value × (t ≡ value)) (λ e. (TrackingRange value → ⊥) × (e ≡ OutOfRange.Tracking) × (number e ≡ 17)) }
    {
        match value {
            -500..=500 => Ok(TrackingUnits { value }),
            _ => Err(OutOfRange::Tracking),
        }
    }
}

// The measurer below, tracked.
#[derive(Drop)]
pub struct Tracking<M> {
    below: M,
    units: TrackingUnits,
    ghost range: { TrackingRange units },
}

impl<M: Measurer> Tracking<M> {
    pub fn new(below: M, units: TrackingUnits) -> Tracking<M>
        ensures made { (result.below ≡ below) × (result.units ≡ units) }
        ensures sound { M.sound below → M.sound result.below }
    {
        Tracking { below, units }
    }
}

impl<M: Measurer> Measurer for Tracking<M> {
    ghost meaning = { λ t. tracked t.units (M.meaning t.below) };

    ghost sound = { λ t. M.sound t.below };

    ghost lenders = { λ t. M.lenders t.below };

    ghost bounded = { Prim.search rules };

    fn covers(&mut self, c: u8) -> bool {
        self.below.covers(c)
    }

    fn advance(&mut self, before: Option<u8>, c: u8) -> Result<u16, MissingGlyph> {
        let units = self.units;
        let advance = self.below.advance(before, c).map_err(MissingGlyph::deeper)?;
        match before {
            None => Ok(advance),
            Some(_) => Ok(cut(i32::from(advance) + units.value)),
        }
    }
}
