//! The sectors that a list names are marked as used.
ghost use Rattle.std.specs.Prelude.{◌≡◌, true, false, ℕ, List, [], ◌∷◌, ◌++◌, length};
ghost use Rattle.pages.specs.Marked.{IsMarked, AreNames};

/// Marks a sector that is named. It is false where the sector is a root, isn't of the volume, or is marked; 0 names none.
pub(crate) fn mark_name(used: &mut Vec<bool>, name: u32) -> bool
    ensures count { length used.new.items ≡ length used.old.items }
    ensures marked { result ≡ true → (before : List ℕ) → IsMarked before used.old.items
        → IsMarked (before ++ name ∷ []) used.new.items }
    ensures refused { result ≡ false → (before : List ℕ) → IsMarked before used.old.items
        → AreNames (length used.old.items) (before ++ name ∷ []) → ⊥ }
{
    if name == 0 {
        return true;
    }
    let sector = name as usize;
    if sector >= used.len() {
        return false;
    }
    if used[sector] {
        return false;
    }
    used[sector] = true;
    true
}

/// Marks each sector that is named, if each is after the roots, within the volume, and named once.
pub(crate) fn mark_names(used: &mut Vec<bool>, names: &[u32]) -> bool
    ensures count { length used.new.items ≡ length used.old.items }
    ensures marked { result ≡ true → (before : List ℕ) → IsMarked before used.old.items
        → IsMarked (before ++ names.now) used.new.items }
    ensures refused { result ≡ false → (before : List ℕ) → IsMarked before used.old.items
        → AreNames (length used.old.items) (before ++ names.now) → ⊥ }
{
    for name in names {
        if !mark_name(used, *name) {
            return false;
        }
    }
    true
}
