//! Lists whose memory is allocated before they are filled.

ghost use Rattle.std.specs.Prelude.{◌≡◌, ◌+◌, ◌≤◌, [], ◌++◌, length, vec_len, vec_capacity, IfOk};

use crate::outcomes::Want;
use std::alloc::Global;

/// Returns an empty list with memory for `count` items. `Want` is out of memory.
pub fn with_room<T: Drop>(alloc: Global, count: usize) -> Result<Vec<T>, Want>
    ensures empty { IfOk result (λ items. items.items ≡ []) }
    ensures room { IfOk result (λ items. count ≤ vec_capacity items) }
{
    match Vec::with_capacity(alloc, count) {
        Ok(items) => Ok(items),
        Err(_) => Err(Want),
    }
}

/// Appends bytes within the memory that the list has; it never allocates.
pub fn append_reserved(list: &mut Vec<u8>, bytes: &[u8])
    requires room { vec_len list.old + length bytes.now ≤ vec_capacity list.old }
    ensures items { list.new.items ≡ list.old.items ++ bytes.now }
    ensures count { vec_len list.new ≡ vec_len list.old + length bytes.now }
    ensures capacity { vec_capacity list.old ≤ vec_capacity list.new }
{
    list.extend_from_slice(bytes).unwrap();
}
