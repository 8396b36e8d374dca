//! The words "what was returned is what the definition says, unless memory ran out", for the contracts of every crate; and what was
//! made, held beside what is made after it.
#![tactic(auto)]

mod pairs;

ghost use Rattle.std.specs.Prelude.{◌≡◌, ℕ, Result, Ok, Option, Some};
ghost use Rattle.answers.specs.Answer.{Fails, Gives};

pub use pairs::beside;

/// A definition says one thing alone, so what was returned, want of memory apart, is the one value of it or the one fault.
pub fn one_answer()
    ensures value { (says : Result ℕ ℕ) (x : ℕ)
        → Gives (λ (y : ℕ). y) (λ (e : ℕ). Some e) (Ok x) says → says ≡ Ok x }
    ensures fault { (says : Result ℕ ℕ) (f : ℕ) → Fails (Some f) says → says ≡ Result.Err f }
{}
