// What a list with room for so many entries refuses.

// All places are taken.
#[derive(Clone, Copy, Debug, PartialEq, Eq)]
pub struct Full;
