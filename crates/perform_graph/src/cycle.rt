//! Marks of paragraphs that perform one another.

ghost use Rattle.std.specs.Prelude.{◌<◌, All, IfOk};
ghost use Rattle.perform_graph.specs.Walk.{AreMarks};

use crate::visit::Visit;
use sqlite_items::Items;
use std::alloc::{AllocError, Global};

/// Marks the paragraphs of these visits, out of so many.
pub fn marks_of(alloc: Global, count: usize, ring: &[Visit]) -> Result<Items<bool>, AllocError>
    requires { All (λ visit. visit.paragraph < count) ring.now }
    ensures { IfOk result (AreMarks ring.now) }
{
    let mut marks = vec![in alloc; false; count]?;
    for visit in ring {
        marks[visit.paragraph] = true;
    }
    Ok(Items::from_vec(marks))
}
