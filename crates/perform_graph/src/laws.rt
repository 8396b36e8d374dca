//! What an answer rules out.

ghost use Rattle.std.specs.Prelude.{ℕ, Bool, List};
ghost use Rattle.perform_graph.specs.declared.performed.PerformedRange.{PerformedRange};
ghost use Rattle.perform_graph.specs.Order.{AllDecrease, PerformOneAnother};

/// Where ranks decrease along each PERFORM, no paragraphs perform one another: so a program has one of the two answers only.
pub fn one_answer()
    ensures { (performed : List PerformedRange) (height : ℕ → ℕ) (among : ℕ → Bool)
        → AllDecrease height performed → PerformOneAnother among performed → ⊥ }
{}
