// Numbers as files write them: one to five digits, with a minus before them or none.
ghost use Rattle.std.specs.Prelude.{◌≡◌, ◌<◌, IfSome};
ghost use Rattle.numerals.specs.Reading.{magnitude, integer};

const MOST_DIGITS: usize = 5;

// The number that the digits write, if there are one to five and nothing else.
pub fn magnitude(text: &[u8]) -> Option<u32>
    ensures value { result ≡ magnitude text.now }
    ensures bound { IfSome result (λ n. n < 100000) }
{
    if !(1..=MOST_DIGITS).contains(&text.len()) {
        return None;
    }
    let mut value = 0;
    for b in text {
        match *b {
            b'0'..=b'9' => value = value * 10 + u32::from(*b - b'0'),
            _ => return None,
        }
    }
    Some(value)
}

// The number that digits write, with a minus before them or none.
pub fn integer(text: &[u8]) -> Option<i32>
    ensures { result ≡ integer text.now }
{
    match text {
        [b'-', digits @ ..] => Some(-(magnitude(digits)? as i32)),
        _ => Some(magnitude(text)? as i32),
    }
}
