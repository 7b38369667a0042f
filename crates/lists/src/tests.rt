// What the lender finds in its slots once the list is gone.
ghost use Rattle.std.specs.Prelude.{◌≡◌, ◌≤◌, length, slice_set};

use crate::bounded::BoundedList;
use crate::full::Full;
use std::test::Fail;

fn lend(slots: &mut [u16], first: u16, second: u16) -> Result<(), Full>
    requires { 2 ≤ length slots.old }
    ensures { slots.new ≡ slice_set (slice_set slots.old 0 first) 1 second }
{
    let mut list = BoundedList::new(slots);
    list.push(first)?;
    list.push(second)
}

#[test]
fn the_slots_hold_the_entries(rt: HostRuntime) -> Result<(), Fail> {
    let mut slots = [9u16; 2];
    lend(&mut slots, 4, 5)?;
    assert_eq!(rt; slots, [4, 5]);
    Ok(())
}

#[test]
fn a_full_list_stays_as_it_was(rt: HostRuntime) -> Result<(), Fail> {
    let mut slots = [0u8; 2];
    let mut list = BoundedList::new(&mut slots);
    list.push(7)?;
    list.push(8)?;
    assert_eq!(rt; list.push(9), Err(Full));
    assert_eq!(rt; list.len(), 2);
    assert_eq!(rt; list.as_slice(), [7, 8].as_slice());
    Ok(())
}
