// A number in decimal digits, without leading zeros.
ghost use Rattle.std.specs.Prelude.{◌≤◌};

mod calls;

// The digits stand at the end of the array, from `start` on. The greatest number has twenty.
#[derive(Clone, Copy)]
pub struct Decimal {
    digits: [u8; 20],
    start: usize,
    ghost within: { start ≤ 20 },
}
