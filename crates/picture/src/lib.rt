//! Pictures: the category of a data item, its size, its digit places and its editing places, read from the picture's
//! text. A text is answered with the picture of its form, and refused exactly where it has none.
#![tactic(auto)]

mod category;
mod class;
mod description;
mod edited;
mod fault;
mod form;
mod picture;
mod place;
mod run;
mod spelling;
mod symbol;
mod text;
mod written;

pub use category::Category;
pub use fault::{PictureError, PictureFault};
pub use form::{any_division, bounds, one_form, one_spelling};
pub use picture::Picture;
pub use place::{Place, Region};
pub use run::Run;
pub use symbol::{Suppression, Symbol};
