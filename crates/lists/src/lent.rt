// A list that grows over lent memory, up to a stated maximum.
ghost use Rattle.std.specs.Prelude.{◌≤◌, length};

mod calls;

#[derive(Drop)]
pub struct LentList<'a, T> {
    // the memory, with the list's values at its front: lent and counted, since there is no heap
    slots: &'a mut [T],
    count: usize,
    most: usize,
    ghost within: { count ≤ length slots.now },
}
