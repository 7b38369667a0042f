// The list writer: the list stands in the front of the lent buffer.
ghost use Rattle.std.specs.Prelude.{◌≤◌, length};

use crate::place::Place;

mod calls;

#[derive(Drop)]
pub struct ListWriter<'b> {
    buffer: &'b mut [u8],
    place: Place,
    ghost inside: { place.at ≤ length buffer.now },
}
