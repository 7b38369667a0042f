// The making of a decimal, and its bytes.
ghost use Rattle.std.specs.Prelude.{◌≡◌, decimal};
ghost use Rattle.numerals.specs.Writing.{figures, Digits};

use super::Decimal;
use itoa::write_digits;

impl Decimal {
    pub fn new(n: u64) -> Decimal
        ensures value { figures result ≡ decimal n }
        ensures digits { Digits n (figures result) }
    {
        let mut digits = [b'0'; 20];
        let start = write_digits(n, &mut digits, 20);
        Decimal { digits, start }
    }

    pub fn as_bytes(&self) -> &[u8]
        ensures { result.now ≡ figures self.now }
    {
        &self.digits[self.start..]
    }
}
