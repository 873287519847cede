// One value in all of a memory.
ghost use Rattle.std.specs.Prelude.{◌≡◌, length, replicate};

// Puts a value into every slot. Not the library's `fill`: that asks that a `clone` of T never fails, which `Copy` doesn't promise.
pub fn fill_with<T: Copy>(slots: &mut [T], value: T)
    ensures { slots.new ≡ replicate (length slots.old) value }
{
    for slot in slots.iter_mut() {
        *slot = value;
    }
}
