//! What holds of entries that keep the rules, and of literals.

ghost use Rattle.std.specs.Prelude.{◌≡◌, true, List, []};
ghost use Rattle.items.specs.Items.{IsTaken};
ghost use Rattle.source_tree.specs.declared.entry.Entry.{Entry};
ghost use Rattle.source_tree.specs.declared.literal.LiteralValue.{LiteralValue};
ghost use Rattle.source_tree.specs.declared.select.FileDescription.{FileDescription};
ghost use Rattle.source_tree.specs.EntryRules.{entry_rules};
ghost use Rattle.source_tree.specs.FileRules.{description_rules};
ghost use Rattle.source_tree.specs.Levels.{forest_of};
ghost use Rattle.source_tree.specs.Literals.{literal_sender};
ghost use Rattle.source_tree.specs.ValueRules.{has_form};
ghost use Rattle.data_entries.specs.Nesting.{AreTold};

/// Each level of entries that keep the rules is told as it is.
pub fn levels_are_told()
    ensures { (entries : List Entry) → entry_rules entries ≡ [] → AreTold (forest_of entries) }
{}

/// So is each level of a file's records, where its description keeps the rules.
pub fn record_levels_are_told()
    ensures { (one : FileDescription) → description_rules one ≡ []
        → AreTold (forest_of one.entries) }
{}

/// What a literal of a source text sends has the bytes of what it counts as.
pub fn senders_have_their_form()
    ensures { (value : LiteralValue) → has_form value ≡ true
        → IsTaken (literal_sender value).taken (literal_sender value).bytes }
{}
