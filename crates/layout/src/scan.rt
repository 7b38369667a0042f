// One row's scan over the characters of a text.
ghost use Rattle.std.specs.Prelude.{◌≡◌, ◌+◌, ◌^◌, ◌<◌, ◌≤◌};
ghost use Rattle.layout.specs.Scans.{fresh, last_break, taken, whole_row, ending_before, over_row};
ghost use Rattle.page.specs.Texts.{most_characters};

use page::ending::Ending;
use page::policy::Policy;
use page::row::Row;
use page::text::NEWLINE;

// A place where the policy allows a break, and the width of the row if it ends there.
#[derive(Clone, Copy)]
pub struct Break {
    pub place: usize,
    pub width: u32,
}

// What is known of the part [start, place) of a row that is being broken.
#[derive(Clone, Copy)]
pub struct Scan {
    pub start: usize,
    pub place: usize,
    // the character before `place`, if that is in the row
    pub before: Option<u8>,
    // the sum of the advances
    pub edge: u32,
    // the same without the hanging characters at the end
    pub width: u32,
    // the last allowed break in the part
    pub last: Option<Break>,
}

impl Scan {
    pub fn new(start: usize) -> Scan
        ensures { result ≡ fresh start }
    {
        Scan {
            start,
            place: start,
            before: None,
            edge: 0,
            width: 0,
            last: None,
        }
    }

    fn last_break<P: Policy>(&self, policy: &P, c: u8) -> Option<Break>
        ensures { result ≡ last_break (P.rules policy.now) self.now c }
    {
        match self.before {
            Some(before) if policy.may_break(before, c) => Some(Break {
                place: self.place,
                width: self.width,
            }),
            _ => self.last,
        }
    }

    // The scan once `c`, of that advance, is taken into the row.
    pub fn taken<P: Policy>(&self, policy: &P, c: u8, advance: u16) -> Scan
        requires room { self.now.place < most_characters }
        requires edge_fits { self.now.edge + advance < 2 ^ 32 }
        ensures { result ≡ taken (P.rules policy.now) self.now c advance }
    {
        let edge = self.edge + u32::from(advance);
        let width = if policy.hangs(c) { self.width } else { edge };
        Scan {
            start: self.start,
            place: self.place + 1,
            before: Some(c),
            edge,
            width,
            last: self.last_break(policy, c),
        }
    }

    // The row of all that was taken.
    pub fn whole(&self, ending: Ending) -> Row
        requires { self.now.place ≤ most_characters }
        ensures { result ≡ whole_row self.now ending }
    {
        Row {
            start: self.start,
            end: self.place,
            ending,
            width: self.width,
            reach: self.place + 1,
        }
    }

    // The row, where the next character does not fit: `with` is the scan with it, and `follows` what
    // stands behind it.
    pub fn over(&self, with: &Scan, follows: Option<u8>) -> Row
        requires room { self.now.place < most_characters }
        requires one_further { with.now.place ≡ self.now.place + 1 }
        ensures { result ≡ over_row self.now with.now follows }
    {
        if let Some(last) = with.last {
            return Row {
                start: self.start,
                end: last.place,
                ending: Ending::Wrapped,
                width: last.width,
                reach: with.place,
            };
        }
        if self.place == self.start {
            return Row {
                start: self.start,
                end: with.place,
                ending: ending_before(follows),
                width: with.width,
                reach: with.place + 1,
            };
        }
        self.whole(Ending::Cut)
    }
}

// The ending of a row of one character that is wider than the measure.
fn ending_before(follows: Option<u8>) -> Ending
    ensures { result ≡ ending_before follows }
{
    match follows {
        None => Ending::End,
        Some(NEWLINE) => Ending::Newline,
        Some(_) => Ending::Cut,
    }
}
