// What a run refuses.
ghost use Rattle.std.specs.Prelude.{◌≡◌};

// The list has no room for the entry of this line.
#[derive(Clone, Copy, Debug)]
pub struct ListFull {
    pub line: usize,
}

impl ListFull {
    pub fn number(self) -> u8
        ensures { result ≡ 9 }
    {
        9
    }
}
