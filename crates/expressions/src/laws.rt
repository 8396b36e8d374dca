//! What holds of the rules and their readers: each reader answers what its rule spells, and nothing else.

ghost use Rattle.std.specs.Prelude.{◌≡◌, ℕ};
ghost use Rattle.expressions.specs.References.{reference as reference_rule, reference_reader};
ghost use Rattle.expressions.specs.Literals.{literal as literal_rule, literal_reader};
ghost use Rattle.expressions.specs.Operands.{operand as operand_rule, operand_reader, number_operand as number_rule, number_operand_reader};
ghost use Rattle.expressions.specs.Expressions.{expression as expression_rule, expression_reader};
ghost use Rattle.expressions.specs.Laws.{IsSoundReader, Only, OnlyToDepth, Passes, Closes};
ghost use Rattle.expressions.specs.Looking.{past_reference, reference_before, after_reference_before};
ghost use Rattle.grammar.specs.Parts.{some_of};
ghost use Rattle.tokens.specs.declared.reserved.Reserved.{Reserved};

/// References.
pub fn reference_law()
    ensures spelled { IsSoundReader reference_rule reference_reader }
    ensures only { Only reference_rule reference_reader }
{}

/// Literals and figurative constants.
pub fn literal_law()
    ensures spelled { IsSoundReader literal_rule literal_reader }
    ensures only { Only literal_rule literal_reader }
{}

/// Operands, and those that are numbers.
pub fn operand_law()
    ensures spelled { IsSoundReader operand_rule operand_reader }
    ensures only { Only operand_rule operand_reader }
    ensures number_spelled { IsSoundReader number_rule number_operand_reader }
    ensures number_only { Only number_rule number_operand_reader }
{}

/// Arithmetic expressions, to each depth.
pub fn expression_law()
    ensures spelled { (depth : ℕ)
        → IsSoundReader (expression_rule depth) (expression_reader depth) }
    ensures only { OnlyToDepth }
{}

/// Looking past a reference passes exactly the tokens that a reference spells; past one and a word, those of both; and looking
/// past parentheses around an expression passes these.
pub fn looking_law()
    ensures reference { Passes (some_of reference_rule) past_reference }
    ensures before { (one : Reserved) → Passes (reference_before one) (after_reference_before one) }
    ensures parentheses { (depth : ℕ) → Closes (expression_rule depth) }
{}
