//! The order of paragraphs.

ghost use Rattle.std.specs.Prelude.{All, IfOk};
ghost use Rattle.perform_graph.specs.Order.{IsRange, IsOrder};

use crate::cycle::marks_of;
use crate::performed::PerformedRange;
use crate::performs::Performs;
use crate::progress::ranks_of;
use crate::walk::Walk;
use sqlite_items::Items;
use std::alloc::{AllocError, Global};

/// What is known of paragraphs that perform others.
#[derive(Drop)]
pub enum Order {
    /// A rank for each paragraph, below their count: each performs only lower ones.
    Ranks(Items<usize>),
    /// Paragraphs are marked that perform one another: each of them performs one of them.
    Recursive(Items<bool>),
}

/// The order of so many paragraphs.
pub fn order_of(
    alloc: Global,
    count: usize,
    performed: &[PerformedRange],
) -> Result<Order, AllocError>
    requires { All (IsRange count) performed.now }
    ensures { IfOk result (IsOrder count performed.now) }
{
    let performs = Performs::new(alloc, count, performed)?;
    let mut walk = Walk::new(alloc, count)?;
    for paragraph in 0..count {
        if walk.states[paragraph].is_seen() {
            continue;
        }
        if let Some(depth) = walk.cycle_from(&performs, paragraph)? {
            return Ok(Order::Recursive(marks_of(alloc, count, &walk.path[depth..])?));
        }
    }
    Ok(Order::Ranks(ranks_of(alloc, &walk.states)?))
}
