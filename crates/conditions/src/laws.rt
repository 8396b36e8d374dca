//! What holds of the rules of conditions, selection subjects and selection objects, and their readers: a reader answers what its
//! rule spells, and nothing else.

ghost use Rattle.std.specs.Prelude.{ℕ};
ghost use Rattle.expressions.specs.Laws.{IsSoundReader, Closes};
ghost use Rattle.conditions.specs.Conditions.{condition as condition_rule, condition_reader};
ghost use Rattle.conditions.specs.Evaluate.{subject as subject_rule, subject_reader, object as object_rule, object_reader};
ghost use Rattle.conditions.specs.Laws.{OnlyToDepth, SubjectsToDepth, ObjectsToDepth, NamesAreValues, NoNames};

/// Conditions, to each depth.
pub fn condition_law()
    ensures spelled { (depth : ℕ) → IsSoundReader (condition_rule depth) (condition_reader depth) }
    ensures only { OnlyToDepth }
    ensures parentheses { (depth : ℕ) → Closes (condition_rule depth) }
{}

/// Selection subjects, to each depth.
pub fn subject_law()
    ensures spelled { (depth : ℕ) → IsSoundReader (subject_rule depth) (subject_reader depth) }
    ensures only { SubjectsToDepth }
    ensures names { NamesAreValues }
{}

/// Selection objects, to each depth.
pub fn object_law()
    ensures spelled { (depth : ℕ) → IsSoundReader (object_rule depth) (object_reader depth) }
    ensures only { ObjectsToDepth }
    ensures names { NoNames }
{}
