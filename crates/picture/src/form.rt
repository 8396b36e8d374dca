//! What holds of every form.

ghost use Rattle.std.specs.Prelude.{◌≡◌, ℕ, List};
ghost use Rattle.picture.specs.Forms.{whole_picture, some_of, stretch, numeric_arrangement, any_numeric_arrangement, arrangement, any_arrangement};
ghost use Rattle.picture.specs.Pictures.{IsPicture, IsAnyPicture, IsBounded};
ghost use Rattle.picture.specs.Spelling.{spelling_of};

use crate::class::Class;
use crate::description::Description;
use crate::run::Run;
use crate::symbol::Suppression;

/// Each text is one picture at the most.
pub fn one_form()
    ensures { (text : List ℕ) (one other : Description) → IsPicture text one → IsPicture text other
        → one ≡ other }
{}

/// No two pictures have the same spelling.
#[tactic(auto, using(crate::proofs::Pictures::one_spelling))]
pub fn one_spelling()
    ensures { (one other : Description) → IsAnyPicture one → IsAnyPicture other
        → spelling_of one.runs ≡ spelling_of other.runs → one ≡ other }
{}

/// Digit places are 1 to 18 in numeric and numeric edited pictures and 0 in others, the scale is at most the digit places, and
/// an edited picture has at most 160 places.
pub fn bounds()
    ensures { (text : List ℕ) (picture : Description) → IsPicture text picture → IsBounded picture }
{}

/// However a picture can be divided into its parts, it can be where each part takes all that it can.
pub fn any_division()
    // Pictures of characters, which are one stretch.
    ensures characters { (class : Class) (runs : List Run) → whole_picture (some_of class) runs
        → whole_picture (stretch class) runs }
    ensures numeric { (runs : List Run) → whole_picture any_numeric_arrangement runs
        → whole_picture numeric_arrangement runs }
    ensures edited { (by : Suppression) (runs : List Run)
        → whole_picture (any_arrangement by runs) runs → whole_picture (arrangement by runs) runs }
{}
