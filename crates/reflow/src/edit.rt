// Where a text is edited.
ghost use Rattle.std.specs.Prelude.{◌≡◌, ◌+◌, ◌-◌, ◌^◌, min};

// `ins` characters in place of the `del` at `at`.
#[derive(Clone, Copy)]
pub struct Edit {
    pub at: usize,
    pub del: usize,
    pub ins: usize,
}

impl Edit {
    // Where a place behind the edit comes to lie.
    pub(crate) fn moved(self, place: usize) -> usize
        ensures { result ≡ min (place - self.del + self.ins) (2 ^ 64 - 1) }
    {
        place.saturating_sub(self.del).saturating_add(self.ins)
    }
}
