// The advance cache: the layer below is asked once for a pair, as long as the pair is held.
ghost use Rattle.std.specs.Prelude.{◌≡◌, ℕ, ◌+◌, ◌%◌, ◌<◌, length, replicate, Some, None, Decides, MatchOption, slice_set};
ghost use Rattle.metrics.specs.Meaning.{answer};
ghost use Rattle.layers.specs.Cache.{cached, most_held, At, Holds, Apart, FillsInTurn, SoundCache, Keeps};
ghost use Rattle.std.proofs.Common.{rules};

use metrics::fault::MissingGlyph;
use metrics::measurer::Measurer;

// How many pairs are held at most.
const MAX_HELD: usize = 64;

// A pair of characters, the first absent at a row's start, with the advance of the second.
#[derive(Clone, Copy)]
struct Held {
    before: Option<u8>,
    code: u8,
    advance: u16,
}

impl Held {
    fn is_of(&self, before: Option<u8>, c: u8) -> bool
        ensures { Decides result ((self.now.before ≡ before) × (self.now.code ≡ c)) }
    {
        (self.before, self.code) == (before, c)
    }
}

// The pairs held. Their slots are filled in turn, so that the oldest pair makes way; by hand, since the
// library's ring takes the heap, and the making of a cache cannot fail.
#[derive(Drop)]
struct HeldPairs {
    slots: [Option<Held>; MAX_HELD],
    next: usize,
    ghost all: { length slots ≡ most_held },
    ghost within: { next < most_held },
    ghost apart: { Apart slots },
    ghost turn: { FillsInTurn slots next },
}

impl HeldPairs {
    fn new() -> HeldPairs
        ensures { result.slots ≡ replicate most_held None }
    {
        HeldPairs {
            slots: [None; MAX_HELD],
            next: 0,
        }
    }

    fn find(&self, before: Option<u8>, c: u8) -> Option<u16>
        ensures { MatchOption result (Holds self.now.slots before c → ⊥) (λ a. (k : ℕ) × At self.now.slots k before c a) }
    {
        for slot in &self.slots {
            if let Some(held) = slot
                && held.is_of(before, c)
            {
                return Some(held.advance);
            }
        }
        None
    }

    fn keep(&mut self, held: Held)
        requires { Holds self.old.slots held.before held.code → ⊥ }
        ensures { self.new.slots ≡ slice_set self.old.slots self.old.next (Some held) }
    {
        self.slots[self.next] = Some(held);
        self.next = (self.next + 1) % MAX_HELD;
    }
}

// The measurer below, with the advances of at most 64 pairs. That these are right is the cache's soundness, and
// no ghost field, which would ask whoever names the type for the bound.
#[derive(Drop)]
pub struct AdvanceCache<M> {
    below: M,
    pairs: HeldPairs,
}

impl<M: Measurer> AdvanceCache<M> {
    pub fn new(below: M) -> AdvanceCache<M>
        ensures made { (result.below ≡ below) × (result.pairs.slots ≡ replicate most_held None) }
        ensures sound { M.sound below → SoundCache M.sound M.meaning result.below result.pairs.slots }
    {
        AdvanceCache {
            below,
            pairs: HeldPairs::new(),
        }
    }
}

impl<M> AdvanceCache<M> {
    // Whether the advance of `c` after `before` would be answered without asking below.
    pub fn held(&self, before: Option<u8>, c: u8) -> bool
        ensures { Decides result (Holds self.now.pairs.slots before c) }
    {
        self.pairs.find(before, c).is_some()
    }
}

impl<M: Measurer> Measurer for AdvanceCache<M> {
    ghost meaning = { λ cache. cached (M.meaning cache.below) };

    ghost sound = { λ cache. SoundCache M.sound M.meaning cache.below cache.pairs.slots };

    ghost lenders = { λ cache. M.lenders cache.below };

    ghost bounded = { Prim.search rules };

    fn covers(&mut self, c: u8) -> bool
        ensures same { cached (M.meaning self.new.below) ≡ cached (M.meaning self.old.below) }
        ensures lenders { M.lenders self.new.below ≡ M.lenders self.old.below }
        ensures stays { SoundCache M.sound M.meaning self.old.below self.old.pairs.slots → SoundCache M.sound M.meaning self.new.below self.new.pairs.slots }
        ensures value { SoundCache M.sound M.meaning self.old.below self.old.pairs.slots → result ≡ (M.meaning self.old.below).covers c }
        ensures keeps { self.new.pairs.slots ≡ self.old.pairs.slots }
    {
        self.below.covers(c)
    }

    fn advance(&mut self, before: Option<u8>, c: u8) -> Result<u16, MissingGlyph>
        ensures same { cached (M.meaning self.new.below) ≡ cached (M.meaning self.old.below) }
        ensures lenders { M.lenders self.new.below ≡ M.lenders self.old.below }
        ensures stays { SoundCache M.sound M.meaning self.old.below self.old.pairs.slots → SoundCache M.sound M.meaning self.new.below self.new.pairs.slots }
        ensures value { SoundCache M.sound M.meaning self.old.below self.old.pairs.slots → result ≡ answer (cached (M.meaning self.old.below)) before c }
        ensures keeps { Keeps self.old.pairs.slots self.new.pairs.slots self.old.below self.new.below before c result }
    {
        if let Some(advance) = self.pairs.find(before, c) {
            return Ok(advance);
        }
        let advance = self.below.advance(before, c).map_err(MissingGlyph::deeper)?;
        self.pairs.keep(Held {
            before,
            code: c,
            advance,
        });
        Ok(advance)
    }
}
