// What a font file is refused for.
ghost use Rattle.std.specs.Prelude.{◌≡◌};
ghost use Rattle.afm.specs.Faults.{line_fault_number, number, line};
ghost use Rattle.afm.specs.declared.fault.LineFault.TheVariants.{NoSlot};

use lists::full::Full;

// The cause at one line.
#[derive(Clone, Copy, Debug, PartialEq, Eq)]
pub enum LineFault {
    // a line that is not of its section
    Misplaced,
    // a field missing, misspelt or outside its range
    Field,
    // a name, a code or a pair given again
    Again,
    // a pair with a name that no glyph line gave
    UnknownName,
    // an entry while all slots are used
    NoSlot(Full),
    // a count that is not the number of entry lines
    Count,
}

impl LineFault {
    fn number(self) -> u8
        ensures { result ≡ line_fault_number self }
    {
        match self {
            LineFault::Misplaced => 10,
            LineFault::Field => 11,
            LineFault::Again => 12,
            LineFault::UnknownName => 13,
            LineFault::NoSlot(_) => 14,
            LineFault::Count => 15,
        }
    }
}

// By hand, since contracts name the variant and a derived `From` has none.
impl From<Full> for LineFault {
    ghost from_gives = { λ full fault. fault ≡ NoSlot full };

    fn from(full: Full) -> LineFault {
        LineFault::NoSlot(full)
    }
}

#[derive(Clone, Copy, Debug, PartialEq, Eq)]
pub enum AfmFault {
    // the first line at fault
    At { line: usize, fault: LineFault },
    // the file is over before its EndFontMetrics; the line is one past the last
    Over { line: usize },
}

impl AfmFault {
    pub fn number(self) -> u8
        ensures { result ≡ number self }
    {
        match self {
            AfmFault::At { fault, .. } => fault.number(),
            AfmFault::Over { .. } => LineFault::Count.number(),
        }
    }

    pub fn line(self) -> usize
        ensures { result ≡ line self }
    {
        match self {
            AfmFault::At { line, .. } | AfmFault::Over { line } => line,
        }
    }
}
