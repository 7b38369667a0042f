// The sections of a font file, and what a line may be in each.

#[derive(Clone, Copy)]
pub enum Section {
    // before the first line
    Start,
    Head,
    Glyphs,
    Middle,
    Pairs,
    Tail,
    // past the line that ends the font
    Ended,
}

// What a line is, by its section and its first word.
#[derive(Clone, Copy)]
pub enum Role {
    // leads into a section
    Enters(Section),
    // announces the entries of a section
    Opens(Section),
    Glyph,
    Pair,
    // ends the entries, whose number was announced, and leads into a section
    Closes(Section),
    Skipped,
    Misplaced,
}
