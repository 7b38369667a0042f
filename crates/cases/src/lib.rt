// Labels worked out by hand: one table, proved over the definitions and run as a test.
#![tactic(auto)]

ghost use Rattle.std.specs.Prelude.{◌≡◌, length};
ghost use Rattle.page.specs.Texts.{most_characters};
ghost use Rattle.cases.specs.Table.{worked, AllHold, edits, EditsHold, Newlines, Limits, Script};

#[cfg(test)]
mod tests;

// How many labels the table has; each comes out as the table says.
pub fn worked_cases() -> usize
    ensures { (result ≡ length worked) × AllHold worked }
{
    9
}

// How many edits of labels the table has; each comes out as the table says, and the limit of rows is met.
pub fn worked_edits() -> usize
    ensures { (result ≡ length edits) × EditsHold edits × Newlines }
{
    4
}

// How many characters a sheet holds; one more is refused, and so is a row more than 1,024.
pub fn worked_limits() -> usize
    ensures { (result ≡ most_characters) × Limits }
{
    4_096
}

// How many lines the list of the worked script has; it reads as the table says.
pub fn worked_script() -> usize
    ensures { (result ≡ 6) × Script }
{
    6
}
