//! What fits at the front of the rest of a subject.

ghost use Rattle.std.specs.Prelude.{◌≡◌, ◌≤◌, length, Some, IfOk, IfErr};
ghost use Rattle.text_ops.specs.Walk as spec;
ghost use Rattle.text_ops.specs.Walk.{AreActive, IsFitted, FitsNone};
ghost use Rattle.text_ops.specs.Beginnings.{AreMarked, entries_on};

use crate::beginnings::{CHARACTERS, unmarked};
use crate::progress::{Fitted, Progress, step};

/// The first entry that fits at this place, from which the subject goes on as `rest`. It has passed its fit then. Otherwise the
/// number of characters at which none fits.
pub fn fit_at_front(
    texts: &[u8],
    marks: &[bool; CHARACTERS],
    active: &mut [Progress],
    at: usize,
    rest: &[u8],
) -> Result<Fitted, usize>
    requires within { AreActive active.old (length texts.now) }
    requires marked { AreMarked texts.now marks.now active.old }
    requires rest { 1 ≤ length rest.now }
    ensures within { AreActive active.new (length texts.now) }
    ensures entries { entries_on active.new ≡ entries_on active.old }
    ensures fit { IfOk result
        (λ fitted. Some fitted ≡ spec.first_fit texts.now active.old at rest.now) }
    ensures after { IfOk result
        (λ fitted. active.new ≡ spec.walk_after active.old (Some fitted)) }
    ensures fitted { IfOk result
        (IsFitted (length texts.now) (length active.old) at (length rest.now)) }
    ensures none { IfErr result (FitsNone texts.now active.old at rest.now) }
    ensures same { IfErr result (λ count. active.new ≡ active.old) }
{
    let passed = unmarked(marks, rest);
    if passed > 0 {
        return Err(passed);
    }
    match step(texts, active, at, rest) {
        Some(fitted) => Ok(fitted),
        None => Err(1),
    }
}
