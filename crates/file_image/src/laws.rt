//! What holds of all verbs and files.

ghost use Rattle.std.specs.Prelude.{◌≡◌, ◌++◌, ℕ, List, Ok, Some};
ghost use Rattle.records.specs.declared.verb.Verb.{Verb};
ghost use Rattle.source_tree.specs.References.{ItemPlace};
ghost use Rattle.data_instructions.specs.declared.tables.DataTables.{DataTables};
ghost use Rattle.data_instructions.specs.Tables.{IsTables};
ghost use Rattle.data_image.specs.Spelling.{IsBytes};
ghost use Rattle.file_image.specs.declared.file.CodeFile.{CodeFile};
ghost use Rattle.file_image.specs.Spelling.{verb_bytes, verb_at, IsVerbSpelled, file_bytes, file_at, IsFileSpelled};
ghost use Rattle.file_image.specs.Files.{place_at, IsCodeFile, IsNumberPlace, IsStatusPlace};

/// A verb is read again from its bytes, whatever follows these. What is read from bytes has these as its bytes.
pub fn verb_law()
    ensures again { (verb : Verb) (rest : List ℕ) → IsVerbSpelled verb
        → verb_at (verb_bytes verb ++ rest) ≡ Ok (verb, rest) }
    ensures found { (bytes : List ℕ) (verb : Verb) (rest : List ℕ) → IsBytes bytes
        → verb_at bytes ≡ Ok (verb, rest) → bytes ≡ verb_bytes verb ++ rest }
    ensures fits { (bytes : List ℕ) (verb : Verb) (rest : List ℕ) → IsBytes bytes
        → verb_at bytes ≡ Ok (verb, rest) → IsVerbSpelled verb }
{}

/// The same of one file.
pub fn file_law()
    ensures again { (one : CodeFile) (rest : List ℕ) → IsFileSpelled one
        → file_at (file_bytes one ++ rest) ≡ Ok (one, rest) }
    ensures found { (bytes : List ℕ) (one : CodeFile) (rest : List ℕ) → IsBytes bytes
        → file_at bytes ≡ Ok (one, rest) → bytes ≡ file_bytes one ++ rest }
    ensures fits { (bytes : List ℕ) (one : CodeFile) (rest : List ℕ) → IsBytes bytes
        → file_at bytes ≡ Ok (one, rest) → IsFileSpelled one }
{}

/// Where the tables and a file are in order, RELATIVE KEY is an unsigned integer in an area that isn't the record area, and FILE STATUS
/// has two characters in its area.
pub fn places_law()
    ensures relative_key { (tables : DataTables) (one : CodeFile) (place : ItemPlace)
        → IsTables tables → IsCodeFile tables one → place_at tables one.relative_key ≡ Some place
        → IsNumberPlace tables.areas one.area place }
    ensures status { (tables : DataTables) (one : CodeFile) (place : ItemPlace)
        → IsTables tables → IsCodeFile tables one → place_at tables one.status ≡ Some place
        → IsStatusPlace tables.areas place }
{}
