//! Whether a line names no clause twice among its hints. It is tested before the line is followed, so
//! that following it costs each clause once: a line of millions of equal hints is refused at the second.
ghost use Rattle.std.specs.Prelude.{◌≡◌, ◌<◌, ◌≤◌, ◌&&◌, length, nat_lt, IsTrue, not};
ghost use Rattle.std.specs.List.{list_all};
ghost use Rattle.prv_check.specs.Spending.{are_distinct};

use crate::flags::Flags;
use crate::known::all_below;

/// Whether the hints are numbers below a count, and pairwise different. The flags, of which there are
/// as many, are scratch.
pub fn are_named_once(hints: &[u32], count: usize, named: &mut Flags) -> bool
    requires { count ≤ length named.old }
    ensures once { result ≡ (list_all (λ n. nat_lt n count) hints.now && are_distinct hints.now) }
    ensures table { length named.new ≡ length named.old }
{
    if !all_below(hints, count) {
        return false;
    }
    !are_repeated(hints, named)
}

/// Whether a hint stands there twice.
fn are_repeated(hints: &[u32], named: &mut Flags) -> bool
    requires { IsTrue (list_all (λ n. nat_lt n (length named.old)) hints.now) }
    ensures repeated { result ≡ not (are_distinct hints.now) }
    ensures table { length named.new ≡ length named.old }
{
    named.clear();
    for hint in hints {
        let at = *hint as usize;
        if named.has(at) {
            return true;
        }
        named.set(at);
    }
    false
}
