// The bounded list: entries of any kind stand in the front of the lent slots, in the order they came.
ghost use Rattle.std.specs.Prelude.{◌≤◌, length};

mod calls;

#[derive(Drop)]
pub struct BoundedList<'a, T: Copy> {
    slots: &'a mut [T],
    used: usize,
    ghost within: { used ≤ length slots.now },
}
