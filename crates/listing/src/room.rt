// What a writer of a lent buffer refuses.

// There is no room for an entry.
#[derive(Clone, Copy, Debug, PartialEq, Eq)]
pub struct NoRoom;
