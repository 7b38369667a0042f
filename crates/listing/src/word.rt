// The words of a list's lines.

// A number in decimal digits, or a single character.
#[derive(Clone, Copy)]
pub enum Word {
    Number(u64),
    Letter(char),
}
