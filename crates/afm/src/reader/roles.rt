// What a line may be.
ghost use Rattle.std.specs.Prelude.{◌≡◌};
ghost use Rattle.afm.specs.Sections.{role, by_the_way};

use super::Reader;
use crate::section::{Role, Section};

impl Reader<'_> {
    // By the section and the line's first word; a wordless line's is empty.
    #[tactic(auto, unfolding(crate::specs::Parts::is))]
    pub(super) fn role(&self, word: &[u8]) -> Role
        ensures { result ≡ role self.now.section word.now }
    {
        // called here, since an arm that calls gets no facts of the bytes that the arms before it refused
        let otherwise = by_the_way(word);
        match (self.section, word) {
            (Section::Start, b"StartFontMetrics") => Role::Enters(Section::Head),
            (Section::Head, b"StartCharMetrics") => Role::Opens(Section::Glyphs),
            (Section::Glyphs, b"C") => Role::Glyph,
            (Section::Glyphs, b"EndCharMetrics") => Role::Closes(Section::Middle),
            (Section::Middle, b"StartKernPairs") => Role::Opens(Section::Pairs),
            (Section::Pairs, b"KPX") => Role::Pair,
            (Section::Pairs, b"EndKernPairs") => Role::Closes(Section::Tail),
            (Section::Middle, b"EndFontMetrics") => Role::Enters(Section::Ended),
            (Section::Tail, b"EndFontMetrics") => Role::Enters(Section::Ended),
            (Section::Glyphs | Section::Pairs, []) => Role::Skipped,
            (Section::Head | Section::Middle | Section::Tail, _) => otherwise,
            _ => Role::Misplaced,
        }
    }
}

// In head, middle and tail only the section words mean something.
#[tactic(auto, unfolding(crate::specs::Parts::is, crate::specs::Sections::by_the_way))]
fn by_the_way(word: &[u8]) -> Role
    ensures { result ≡ by_the_way word.now }
{
    match word {
        b"StartFontMetrics"
        | b"StartCharMetrics"
        | b"EndCharMetrics"
        | b"StartKernPairs"
        | b"EndKernPairs"
        | b"EndFontMetrics" => Role::Misplaced,
        _ => Role::Skipped,
    }
}
