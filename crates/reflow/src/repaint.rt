// What a screen has to paint again.

// If `whole`, all rows; else the rows from `from` on: `removed` of the old ones go, and `put` new ones
// come in their place. `broken` is how many rows were broken anew.
// A flag and no enum: these five fields are the format of a record, and it is fixed.
#[derive(Clone, Copy, Debug, Default, PartialEq, Eq)]
pub struct Repaint {
    pub whole: bool,
    pub from: usize,
    pub removed: usize,
    pub put: usize,
    pub broken: u64,
}
