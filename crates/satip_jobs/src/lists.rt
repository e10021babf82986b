//! Lists from which jobs are taken in order, and to whose end they are added.

ghost use Rattle.std.specs.Prelude.{◌≡◌, ◌+◌, ◌<◌, ◌++◌, [], ◌∷◌, vec_len, vec_capacity};

/// Removes the first item of a list; returns it.
pub fn take_first<T>(items: &mut Vec<T>) -> T
    requires some { 0 < vec_len items.old }
    ensures first { items.old.items ≡ result ∷ items.new.items }
    ensures count { vec_len items.old ≡ vec_len items.new + 1 }
    ensures capacity { vec_capacity items.new ≡ vec_capacity items.old }
{
    items.remove(0)
}

/// Appends an item to a list that has the memory for it.
pub fn put_last<T>(items: &mut Vec<T>, item: T)
    requires space { vec_len items.old < vec_capacity items.old }
    ensures last { items.new.items ≡ items.old.items ++ item ∷ [] }
    ensures count { vec_len items.new ≡ vec_len items.old + 1 }
    ensures capacity { vec_capacity items.new ≡ vec_capacity items.old }
{
    items.push_reserved(item);
}
