// What text is set with.
ghost use Rattle.std.specs.Prelude.{◌≡◌};
ghost use Rattle.page.specs.Measures.{Measures};

use page::measure::Measure;

// A measurer, a policy and a measure, and how many rows its calls broke, modulo 2^64; `set_text` counts
// none of its own.
#[derive(Drop)]
pub struct Setter<M, P> {
    pub measurer: M,
    pub policy: P,
    pub measure: Measure,
    pub tally: u64,
    ghost range: { Measures measure },
}

impl<M, P> Setter<M, P> {
    // A setter that has broken no row.
    pub fn new(measurer: M, policy: P, measure: Measure) -> Setter<M, P>
        ensures { (result.measurer ≡ measurer) × (result.policy ≡ policy) × (result.measure ≡ measure) × (result.tally ≡ 0) }
    {
        Setter {
            measurer,
            policy,
            measure,
            tally: 0,
        }
    }
}
