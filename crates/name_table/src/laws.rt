//! What a look-up says of items, of condition names and of files.

ghost use Rattle.std.specs.Prelude.{◌≡◌, [], ◌∷◌, List, Some, map};
ghost use Rattle.source_tree.specs.declared.name.Name.{Name};
ghost use Rattle.source_tree.specs.declared.program.Program.{Program};
ghost use Rattle.source_tree.specs.declared.reference.QualifiedName.{QualifiedName};
ghost use Rattle.source_tree.specs.FileRules.{select_names};
ghost use Rattle.source_tree.specs.LookUp.{all_conditions, first};
ghost use Rattle.source_tree.specs.PerformRules.{given_once};
ghost use Rattle.source_tree.specs.Places.{LocatedItem};
ghost use Rattle.source_tree.specs.ProgramFiles.{ProgramFile, files_named, files_of};
ghost use Rattle.name_table.specs.Conditions.{IsConditionNamed, called_condition};
ghost use Rattle.name_table.specs.Items.{IsNamed, called_item};
ghost use Rattle.name_table.specs.Positions.{look_up};

/// What is found in the table of some items is what the name names among them.
pub fn items_named()
    ensures { (items : List LocatedItem) (reference : QualifiedName)
        → IsNamed items reference (look_up reference (map called_item items)) }
{}

/// What is found in the table of their condition names is what the name names among those.
pub fn conditions_named()
    ensures { (items : List LocatedItem) (reference : QualifiedName) → IsConditionNamed items
        reference (look_up reference (map called_condition (all_conditions items))) }
{}

/// Where each name is given to one SELECT, the first file of a name is its only one.
pub fn files_named_once()
    ensures { (items : List LocatedItem) (program : Program) (name : Name) (file : ProgramFile)
        → given_once [] (select_names program.selects) ≡ [] →
        first (files_named (files_of items program) name) ≡ Some file
        → files_named (files_of items program) name ≡ file ∷ [] }
{}
