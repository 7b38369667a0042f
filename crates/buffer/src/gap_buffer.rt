// A text that is cheap to edit near the place of the last edit.
ghost use Rattle.buffer.specs.Gaps.{Gapped};

mod editing;
mod reading;

// At most 4,096 characters: those before the gap, and those behind it. The memory is taken at
// making, so that an edit does not fail for want of it. Clauses see the text as what is `held`. No
// `impl Model`: callers' clauses compare whole sheets, and a model would hide where the gap lies.
#[derive(Drop)]
pub struct GapBuffer {
    bytes: Vec<u8>,
    gap_start: usize,
    gap_end: usize,
    ghost gapped: { Gapped bytes.items gap_start gap_end },
}
