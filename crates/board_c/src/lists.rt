//! Lists in the caller's memory.
ghost use Rattle.std.specs.Prelude.{◌≡◌, set};

// Writes a value at an index, if the list has one there.
pub(crate) fn put<T: Copy>(list: &mut [T], index: usize, value: T)
    ensures { list.new ≡ set list.old index value }
{
    if index < list.len() {
        list[index] = value;
    }
}
