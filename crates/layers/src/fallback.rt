// Fallback: what the first measurer does not cover is left to a second.
ghost use Rattle.std.specs.Prelude.{◌≡◌, ◌++◌};
ghost use Rattle.layers.specs.Fallback.{fallen_back};
ghost use Rattle.std.proofs.Common.{rules};

use metrics::fault::MissingGlyph;
use metrics::measurer::Measurer;

// Two measurers: a character belongs to the first if that covers it, else to the second.
#[derive(Drop)]
pub struct Fallback<A, B> {
    first: A,
    second: B,
}

impl<A: Measurer, B: Measurer> Fallback<A, B> {
    pub fn new(first: A, second: B) -> Fallback<A, B>
        ensures made { (result.first ≡ first) × (result.second ≡ second) }
        ensures sound { A.Measurer.sound first × B.Measurer.sound second → A.Measurer.sound result.first × B.Measurer.sound result.second }
    {
        Fallback { first, second }
    }
}

impl<A: Measurer, B: Measurer> Measurer for Fallback<A, B> {
    ghost meaning = { λ f. fallen_back (A.Measurer.meaning f.first) (B.Measurer.meaning f.second) };

    ghost sound = { λ f. A.Measurer.sound f.first × B.Measurer.sound f.second };

    ghost lenders = { λ f. A.Measurer.lenders f.first ++ B.Measurer.lenders f.second };

    ghost bounded = { Prim.search rules };

    fn covers(&mut self, c: u8) -> bool {
        self.first.covers(c) || self.second.covers(c)
    }

    fn advance(&mut self, before: Option<u8>, c: u8) -> Result<u16, MissingGlyph> {
        let first_owns = self.first.covers(c);
        let before = match before {
            Some(p) if self.first.covers(p) == first_owns => Some(p),
            _ => None,
        };
        if first_owns {
            return self.first.advance(before, c);
        }
        self.second.advance(before, c).map_err(MissingGlyph::deeper)
    }
}
