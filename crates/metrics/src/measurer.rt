// The interface of every measurer, with its meaning.
ghost use Rattle.std.specs.Prelude.{◌≡◌, ℕ, List, [], ◌∷◌};
ghost use Rattle.metrics.specs.Meaning.{Meaning, Bounded, answer};
ghost use Rattle.metrics.specs.Limits.{cut};
ghost use Rattle.std.proofs.Common.{rules};

use crate::fault::MissingGlyph;

// The greatest advance that any measurer gives.
pub const MAX_ADVANCE: u16 = 16_383;

// A sum of advances and corrections, cut to what an advance can be.
pub fn cut(sum: i32) -> u16
    ensures { result ≡ cut sum }
{
    sum.clamp(0, i32::from(MAX_ADVANCE)) as u16
}

// Both questions leave the meaning as it is, and a sound measurer answers what it says. It is sound if
// what it keeps beside its meaning, as a cache its answers, is right: every constructor makes a sound
// one, and no question unmakes it. One that keeps nothing always is.
pub trait Measurer {
    ghost meaning: { Self → Meaning };

    ghost sound: { Self → Type 0 } = { λ _. Unit {0} };

    // The names of the borrows that it holds, so that whoever lent it something knows what became of that.
    ghost lenders: { Self → List ℕ } = { λ _. [] };

    // Whether there is a glyph for `c`.
    fn covers(&mut self, c: u8) -> bool
        ensures same { meaning self.new ≡ meaning self.old }
        ensures lenders { lenders self.new ≡ lenders self.old }
        ensures stays { sound self.old → sound self.new }
        ensures value { sound self.old → result ≡ (meaning self.old).covers c };

    // The advance of `c` after the character before it in its row, if there is one.
    fn advance(&mut self, before: Option<u8>, c: u8) -> Result<u16, MissingGlyph>
        ensures same { meaning self.new ≡ meaning self.old }
        ensures lenders { lenders self.new ≡ lenders self.old }
        ensures stays { sound self.old → sound self.new }
        ensures value { sound self.old → result ≡ answer (meaning self.old) before c };

    ghost bounded: { (m : Self) → Bounded (meaning m) };
}

// A lent measurer is one too.
impl<M: Measurer> Measurer for &mut M {
    ghost meaning = { λ m. M.meaning m.now };

    ghost sound = { λ m. M.sound m.now };

    ghost lenders = { λ m. m.ghost_name ∷ M.lenders m.now };

    ghost bounded = { Prim.search rules };

    fn covers(&mut self, c: u8) -> bool {
        (**self).covers(c)
    }

    fn advance(&mut self, before: Option<u8>, c: u8) -> Result<u16, MissingGlyph> {
        (**self).advance(before, c)
    }
}
