// A row on the screen.
ghost use Rattle.std.specs.Prelude.{◌≡◌, []};
ghost use Rattle.page.specs.declared.ending.Ending.TheVariants.{End};
ghost use Rattle.screen.specs.Views.{shown_row};

use page::ending::Ending;
use std::alloc::Global;

// A row as it is shown: its characters, the edge behind each, and the ending.
#[derive(Drop)]
pub struct ShownRow {
    pub(crate) chars: Vec<u8>,
    pub(crate) edges: Vec<u32>,
    pub(crate) ending: Ending,
}

impl ShownRow {
    // The row of an empty text.
    pub(crate) fn empty(heap: Global) -> ShownRow
        ensures { shown_row result ≡ record { chars = []; edges = []; ending = End } }
    {
        ShownRow {
            chars: Vec::new(heap),
            edges: Vec::new(heap),
            ending: Ending::End,
        }
    }

    pub fn chars(&self) -> &[u8]
        ensures { result.now ≡ self.now.chars.items }
    {
        self.chars.as_slice()
    }

    pub fn edges(&self) -> &[u32]
        ensures { result.now ≡ self.now.edges.items }
    {
        self.edges.as_slice()
    }

    pub fn ending(&self) -> Ending
        ensures { result ≡ self.now.ending }
    {
        self.ending
    }
}
