// The first item of a list that is refused.

use crate::refusal::PolicyRefusal;

/// Whether it is a refusal, and no lack of memory.
pub(crate) fn refuses<T: Drop>(judged: &Result<T, PolicyRefusal>) -> bool {
    match judged {
        Err(PolicyRefusal::Fault(_)) => true,
        Ok(_) | Err(PolicyRefusal::Memory) => false,
    }
}

/// The number of the first item that is refused, in a list that is refused as soon as one of its items is.
pub fn first_refused<T, F: Fn(&[T]) -> bool>(items: &[T], is_refused: F) -> Option<usize>
    requires { F.IsAlwaysCallable is_refused }
{
    if !is_refused(items) {
        return None;
    }
    let mut good = 0;
    let mut bad = items.len();
    for _ in 0..usize::BITS {
        if bad.saturating_sub(good) <= 1 {
            break;
        }
        let middle = usize::midpoint(good, bad);
        if is_refused(&items[..middle.min(items.len())]) {
            bad = middle;
        } else {
            good = middle;
        }
    }
    Some(good)
}
