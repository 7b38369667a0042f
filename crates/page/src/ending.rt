// Why a row ends where it does.
ghost use Rattle.std.specs.Prelude.{◌≡◌};
ghost use Rattle.page.specs.Endings.{letter_of};

#[derive(Clone, Copy, Debug, PartialEq, Eq)]
pub enum Ending {
    // at a place where the policy allows a break
    Wrapped,
    // inside a word that does not fit
    Cut,
    // at a newline
    Newline,
    // at the end of the text
    End,
}

impl Ending {
    // The letter that stands for the ending in lists.
    pub fn letter(self) -> char
        ensures { result ≡ letter_of self }
    {
        match self {
            Ending::Wrapped => 'W',
            Ending::Cut => 'C',
            Ending::Newline => 'N',
            Ending::End => 'E',
        }
    }
}
