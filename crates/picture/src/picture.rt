//! The picture of an item.

ghost use Rattle.std.specs.Prelude.{◌≡◌, ◌≤◌, ◌*◌, ◌<◌, ◌^◌, IfOk};
ghost use Rattle.answers.specs.Answer.{Gives};
ghost use Rattle.picture.specs.Faults.{fault_of, or_no_form};
ghost use Rattle.picture.specs.Forms.{most_digits};
ghost use Rattle.picture.specs.Runs.{symbol_count};
ghost use Rattle.picture.specs.Pictures as spec;
ghost use Rattle.picture.specs.Pictures.{IsPicture, IsAnswer, IsAnyPicture, IsOfRuns, IsBounded};
ghost use Rattle.picture.specs.Regions.{IsEditingPicture};
ghost use Rattle.picture.specs.Spelling.{spelling_of};

use crate::category::{Category, category_of};
use crate::description::{Description, described};
use crate::fault::{PictureError, PictureFault};
use crate::place::{Place, Region};
use crate::run::Run;
use crate::spelling::are_spelled;
use crate::text::runs_of;
use crate::written::written;
use sqlite_items::Items;
use std::alloc::{AllocError, Global};
use std::marker::Model;

/// The picture of an item (COBOL-85, Nucleus, the PICTURE clause). Each value is the picture of some text; contracts see
/// what it says.
#[derive(Drop)]
pub struct Picture {
    description: Description,
    alloc: Global,
}

impl Model for Picture {
    ghost use Rattle.picture.specs.declared.description.Description.{Description};
    ghost use Rattle.picture.specs.Pictures.{IsAnyPicture};

    ghost Value = { Description };

    ghost view = { λ picture. picture.description };

    ghost invariant = { λ picture. IsAnyPicture picture.description };
}

/// The picture of these runs.
#[tactic(auto, unfolding(crate::specs::Pictures::of_form))]
fn of_form(alloc: Global, runs: Items<Run>) -> Result<Description, PictureError>
    requires { 2 * symbol_count runs < 2 ^ 128 }
    ensures { Gives (λ description. description) fault_of result (or_no_form (spec.of_form runs)) }
{
    match category_of(runs.as_slice()) {
        Some(category) => Ok(described(alloc, category, runs)?),
        None => Err(PictureError::Refused(PictureFault::NoForm)),
    }
}

/// The picture that the text is.
#[tactic(auto, unfolding(crate::specs::Pictures::picture_of))]
fn picture_of(alloc: Global, text: &[u8]) -> Result<Description, PictureError>
    ensures { Gives (λ description. description) fault_of result
        (or_no_form (spec.picture_of text.now)) }
{
    let runs = runs_of(alloc, text)?;
    of_form(alloc, runs)
}

/// The picture of the runs.
#[tactic(auto, unfolding(crate::specs::Pictures::picture_from))]
fn picture_from(alloc: Global, runs: &[Run]) -> Result<Description, PictureError>
    ensures { Gives (λ description. description) fault_of result
        (or_no_form (spec.picture_from runs.now)) }
{
    if !are_spelled(runs) {
        return Err(PictureError::Refused(PictureFault::NoForm));
    }
    let runs = Items::from_slice(alloc, runs)?;
    of_form(alloc, runs)
}

/// The picture that the text is, and the only one.
fn read_text(alloc: Global, text: &[u8]) -> Result<Description, PictureError>
    ensures form { IfOk result (λ picture. IsPicture text.now picture) }
    ensures only { (picture : Description) → IsPicture text.now picture → IsAnswer picture result }
    ensures exact { Gives (λ description. description) fault_of result
        (or_no_form (spec.picture_of text.now)) }
{
    picture_of(alloc, text)
}

/// The picture with these runs, and the only one.
fn read_runs(alloc: Global, runs: &[Run]) -> Result<Description, PictureError>
    ensures form { IfOk result (λ picture. IsOfRuns runs.now picture) }
    ensures only { (picture : Description) → IsOfRuns runs.now picture → IsAnswer picture result }
    ensures exact { Gives (λ description. description) fault_of result
        (or_no_form (spec.picture_from runs.now)) }
{
    picture_from(alloc, runs)
}

impl Picture {
    /// Reads the text of a picture: the characters after PICTURE, in either case. Fault 20 where it has no form.
    pub fn read(alloc: Global, text: &[u8]) -> Result<Picture, PictureError>
        // What is answered is the picture of the text's form.
        ensures form { IfOk result (λ picture. IsPicture text.now picture) }
        // A text with a form is answered with its picture, unless memory runs out.
        ensures only { (picture : Picture) → IsPicture text.now picture → IsAnswer picture result }
        ensures exact { Gives (λ picture. picture) fault_of result
            (or_no_form (spec.picture_of text.now)) }
    {
        let description = read_text(alloc, text)?;
        Ok(Picture { description, alloc })
    }

    /// The picture with these runs, as an image holds them. Fault 20 where they are no picture's.
    pub fn from_runs(alloc: Global, runs: &[Run]) -> Result<Picture, PictureError>
        // What is answered is a picture, and its runs are these.
        ensures form { IfOk result (λ picture. IsOfRuns runs.now picture) }
        // The runs of a picture are answered with it, unless memory runs out.
        ensures only { (picture : Picture) → IsOfRuns runs.now picture → IsAnswer picture result }
        ensures exact { Gives (λ picture. picture) fault_of result
            (or_no_form (spec.picture_from runs.now)) }
    {
        let description = read_runs(alloc, runs)?;
        Ok(Picture { description, alloc })
    }

    /// What holds of every picture: it is some text's, its digit places and size are bounded, and its places are those
    /// that editing counts.
    pub fn laws(&self)
        ensures form { IsAnyPicture self.now }
        ensures bounded { IsBounded self.now }
        ensures editing { IsEditingPicture self.now }
    {
        let _ = &self.description;
    }

    /// The category of the item.
    pub fn category(&self) -> Category
        ensures { result ≡ self.now.category }
    {
        self.description.category
    }

    /// The size of the item, in characters.
    pub fn size(&self) -> u128
        ensures { result ≡ self.now.size }
    {
        self.description.size
    }

    /// The digit places: 1 to 18 in numeric and numeric edited pictures, else 0.
    pub fn digits(&self) -> u8
        ensures value { result ≡ self.now.digits }
        ensures most { self.now.digits ≤ most_digits }
    {
        self.description.digits
    }

    /// The digit places after the point.
    pub fn scale(&self) -> u8
        ensures value { result ≡ self.now.scale }
        ensures most { self.now.scale ≤ self.now.digits }
    {
        self.description.scale
    }

    /// There is an S, a sign, CR or DB.
    pub fn is_signed(&self) -> bool
        ensures { result ≡ self.now.signed }
    {
        self.description.signed
    }

    /// What each character place of a numeric or numeric edited item shows.
    pub fn places(&self) -> &[Place]
        ensures { result.now ≡ self.now.places }
    {
        self.description.places.as_slice()
    }

    /// Where leading zeros are suppressed, if they are.
    pub fn region(&self) -> Option<Region>
        ensures { result ≡ self.now.region }
    {
        self.description.region
    }

    /// The text of the picture: of each run the symbol, and its count in parentheses where that isn't 1. Reading it gives
    /// this picture, and no other picture has the same text.
    pub fn spelling(&self) -> Result<Items<u8>, AllocError>
        ensures text { IfOk result (λ text. text ≡ spelling_of self.now.runs) }
        ensures read { IfOk result (λ text. IsPicture text self.now) }
    {
        written(self.alloc, self.description.runs.as_slice())
    }

    /// The symbols in order.
    pub fn runs(&self) -> &[Run]
        ensures { result.now ≡ self.now.runs }
    {
        self.description.runs.as_slice()
    }
}

impl Clone for Picture {
    ghost use Rattle.std.specs.Prelude.{◌≡◌};

    ghost is_clone = { λ picture copy. copy ≡ picture };

    fn clone(&self) -> Result<Picture, AllocError> {
        let description = self.description.copied(self.alloc)?;
        Ok(Picture {
            description,
            alloc: self.alloc,
        })
    }
}
