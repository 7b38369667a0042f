// The entries that a font is made of.

// A part of a file, by its place and length.
#[derive(Clone, Copy, Debug, Default, PartialEq, Eq)]
pub struct Span {
    pub at: usize,
    pub len: usize,
}

// A glyph: where its name stands in the font's file, its code if it has one, and its width.
#[derive(Clone, Copy, Debug, Default, PartialEq, Eq)]
pub struct Glyph {
    pub name: Span,
    pub code: Option<u8>,
    pub width: u16,
}

// What is added to the width of `second` where it follows `first`.
#[derive(Clone, Copy, Debug, Default, PartialEq, Eq)]
pub struct KernPair {
    pub first: u8,
    pub second: u8,
    pub kern: i16,
}
