// Parts of a line or of a script.
ghost use Rattle.std.specs.Prelude.{◌≡◌};
ghost use Rattle.script.specs.Splits.{split_once, parts};

// What stands before the first `mark`, and what follows it.
pub fn split_once(bytes: &[u8], mark: u8) -> Option<(&[u8], &[u8])>
    ensures { parts result ≡ split_once mark bytes.now }
{
    let place = bytes.iter().position(|b| *b == mark)?;
    Some((&bytes[..place], &bytes[place + 1..]))
}
