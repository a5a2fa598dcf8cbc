// Runs of one value, written into lent memory.
ghost use Rattle.std.specs.Prelude.{◌≡◌, ◌+◌, ◌≤◌, length, replicate};
ghost use Rattle.std.proofs.lemmas.List.Edits.{sets};

// The `count` items from `start` on become `value`, and the others stay. (The library's `fill` is for types whose
// `clone` cannot fail, which no bound says of every T.)
pub fn set_all<T: Copy>(items: &mut [T], start: usize, count: usize, value: T)
    requires { start + count ≤ length items.old }
    ensures { items.new ≡ sets items.old start (replicate count value) }
{
    for i in start..start + count {
        items[i] = value;
    }
}
