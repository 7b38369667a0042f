// Break policies: between which neighbours a row may end, and which characters hang.
ghost use Rattle.std.specs.Prelude.{◌≡◌};
ghost use Rattle.page.specs.Policies.{Rules, spaces, anywhere, breaks_rules, NamesBreaks};

use std::str::FromStr;

pub trait Policy {
    ghost rules: { Self → Rules };

    // Whether a row may end between the neighbours `before` and `after`.
    fn may_break(&self, before: u8, after: u8) -> bool
        ensures { result ≡ (rules self.now).may before after };

    // Whether `c` needs no width at a row's end.
    fn hangs(&self, c: u8) -> bool
        ensures { result ≡ (rules self.now).hangs c };
}

// A lent policy is one too.
impl<P: Policy> Policy for &P {
    ghost rules = { λ p. P.rules p.now };

    fn may_break(&self, before: u8, after: u8) -> bool {
        (**self).may_break(before, after)
    }

    fn hangs(&self, c: u8) -> bool {
        (**self).hangs(c)
    }
}

// Rows end after spaces, and spaces hang.
#[derive(Clone, Copy)]
pub struct Spaces;

impl Policy for Spaces {
    ghost rules = { λ _. spaces };

    fn may_break(&self, before: u8, after: u8) -> bool {
        before == b' ' && after != b' '
    }

    fn hangs(&self, c: u8) -> bool {
        c == b' '
    }
}

// Rows end anywhere, and nothing hangs.
#[derive(Clone, Copy)]
pub struct Anywhere;

impl Policy for Anywhere {
    ghost rules = { λ _. anywhere };

    fn may_break(&self, _before: u8, _after: u8) -> bool {
        true
    }

    fn hangs(&self, _c: u8) -> bool {
        false
    }
}

// Either policy, chosen while a program runs. Its answers are sums of tests and no `match`, since they are
// asked for each character.
#[derive(Clone, Copy, Debug, PartialEq, Eq)]
pub enum Breaks {
    Spaces,
    Anywhere,
}

impl Policy for Breaks {
    ghost rules = { breaks_rules };

    fn may_break(&self, before: u8, after: u8) -> bool {
        *self == Breaks::Anywhere || Spaces.may_break(before, after)
    }

    fn hangs(&self, c: u8) -> bool {
        *self == Breaks::Spaces && Spaces.hangs(c)
    }
}

// A word names no policy.
#[derive(Clone, Copy, Debug, PartialEq, Eq)]
pub struct NoSuchPolicy;

impl FromStr for Breaks {
    type Err = NoSuchPolicy;

    ghost from_str_gives = { NamesBreaks };

    fn from_str(word: &str) -> Result<Breaks, NoSuchPolicy> {
        match word {
            "spaces" => Ok(Breaks::Spaces),
            "anywhere" => Ok(Breaks::Anywhere),
            _ => Err(NoSuchPolicy),
        }
    }
}
