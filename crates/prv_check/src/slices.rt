//! The rest of a slice.
ghost use Rattle.std.specs.Prelude.{◌≡◌, ◌≤◌, drop, length};

/// The items after so many.
pub fn after<T>(items: &[T], count: usize) -> &[T]
    requires { count ≤ length items.now }
    ensures { result.now ≡ drop count items.now }
{
    &items[count..]
}
