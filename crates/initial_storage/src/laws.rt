//! What holds of all programs whose entries and files' descriptions keep the rules.

ghost use Rattle.std.specs.Prelude.{◌≡◌, ℕ, ◌+◌, ◌^◌, ◌<◌, ◌≤◌, List, [], length, Some, Ok, slice_get, slice_index};
ghost use Rattle.std.specs.List.{All};
ghost use Rattle.source_tree.specs.declared.program.Program.{Program};
ghost use Rattle.source_tree.specs.declared.reference.Reference.{Reference};
ghost use Rattle.source_tree.specs.EntryRules.{entry_rules};
ghost use Rattle.source_tree.specs.FileRules.{descriptions_rules};
ghost use Rattle.source_tree.specs.LookUp.{all_conditions};
ghost use Rattle.source_tree.specs.Records.{program_areas, program_items};
ghost use Rattle.source_tree.specs.References.{ItemPlace, place_of};
ghost use Rattle.source_tree.specs.Storage.{Storage};
ghost use Rattle.initial_storage.specs.Conditions.{CanBeSet};
ghost use Rattle.initial_storage.specs.Formed.{IsFormed};
ghost use Rattle.initial_storage.specs.Reach.{IsWithinArea, Lies, program_area_lengths};

/// Each item has the form of its kind, and an edited one the picture that edits it.
pub fn items_have_their_form()
    ensures { (program : Program)
        → entry_rules program.storage ≡ [] → descriptions_rules program.storage program.files ≡ []
        → All IsFormed (program_items program) }
{}

/// Each item lies within its area, with all its occurrences, and so does the place that a reference names, whatever storage
/// holds.
pub fn items_lie_within_areas()
    ensures items { (program : Program)
        → entry_rules program.storage ≡ [] → descriptions_rules program.storage program.files ≡ []
        → All (IsWithinArea (program_area_lengths program)) (program_items program) }
    // There is an area for each item, and its last occurrence ends within it.
    ensures lie { (program : Program) → entry_rules program.storage ≡ []
        → descriptions_rules program.storage program.files ≡ []
        → All (Lies (program_areas program)) (program_items program) }
    ensures places { (program : Program) (reference : Reference)
        (storage : Storage) (place : ItemPlace) → entry_rules program.storage ≡ []
        → descriptions_rules program.storage program.files ≡ [] →
        place_of (program_items program) reference storage ≡ Ok place → place.offset
        + place.item.length ≤ slice_index (program_area_lengths program) place.area }
{}

/// 32 bits hold the length of each area.
pub fn areas_are_small()
    ensures { (program : Program) → entry_rules program.storage ≡ []
        → descriptions_rules program.storage program.files ≡ [] →
        (k : ℕ) (area : List ℕ) → slice_get (program_areas program) k ≡ Some area
        → length area < 2 ^ 32 }
{}

/// The item of each condition name takes its first value, so `set_value` may be called with the two.
pub fn condition_values_suit()
    ensures { (program : Program)
        → entry_rules program.storage ≡ [] → descriptions_rules program.storage program.files ≡ []
        → All CanBeSet (all_conditions (program_items program)) }
{}
