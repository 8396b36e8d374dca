//! The places of an item, one for each character that is shown.

ghost use Rattle.std.specs.Prelude.{◌≡◌, ◌≢◌, ◌*◌, ◌<◌, ◌≤◌, ◌^◌, ◌++◌, IfOk, OnOk};
ghost use Rattle.picture.specs.Forms.{most_places};
ghost use Rattle.picture.specs.Runs as counts;
ghost use Rattle.picture.specs.Runs.{symbol_count};
ghost use Rattle.picture.specs.Places as spec;

use crate::class::Class;
use crate::run::{Run, from_first, size_of};
use crate::symbol::{Suppression, Symbol};
use sqlite_items::Items;
use std::alloc::{AllocError, Global};

/// What one character place of an item shows.
#[derive(Clone, Copy, PartialEq, Eq)]
pub enum Place {
    /// A digit.
    Digit,
    /// A digit, or the fill character for a leading zero.
    Suppressed,
    /// The first floating place, which is no digit place.
    FirstFloating,
    /// A further floating place: a digit, or a space or the floating symbol.
    Floating,
    /// This character, inserted.
    Insertion(u8),
    /// The point.
    Point,
    /// `+` or `-`, by the sign of the value.
    Plus,
    /// A space or `-`, by the sign of the value.
    Minus,
    /// The currency sign.
    Currency,
    /// This letter of CR or DB for a negative value, else a space.
    Negative(u8),
}

/// The places in which leading zeros are suppressed, counted from 0.
#[derive(Clone, Copy, PartialEq, Eq)]
pub struct Region {
    pub by: Suppression,
    /// The first suppressed place.
    pub begin: usize,
    /// The first 9 or the point after it; where neither comes, the end of the item.
    pub end: usize,
}

/// The place of a symbol that has one place.
fn place_of(symbol: Symbol, by: Suppression) -> Place
    ensures { result ≡ spec.place_of by symbol }
{
    match symbol {
        _ if by.is_floating() && by.is_by(symbol) => Place::Floating,
        Symbol::B => Place::Insertion(b' '),
        Symbol::Zero => Place::Insertion(b'0'),
        Symbol::Slash => Place::Insertion(b'/'),
        Symbol::Comma => Place::Insertion(b','),
        Symbol::Point => Place::Point,
        Symbol::Z | Symbol::Star => Place::Suppressed,
        Symbol::Plus => Place::Plus,
        Symbol::Minus => Place::Minus,
        Symbol::Currency => Place::Currency,
        _ => Place::Digit,
    }
}

fn push_symbol(places: &mut Items<Place>, symbol: Symbol, by: Suppression) -> Result<(), AllocError>
    ensures { OnOk result (places.new ≡ places.old ++ spec.symbol_places by symbol) }
{
    match symbol {
        Symbol::S | Symbol::V => Ok(()),
        Symbol::Cr => {
            places.push(Place::Negative(b'C'))?;
            places.push(Place::Negative(b'R'))
        }
        Symbol::Db => {
            places.push(Place::Negative(b'D'))?;
            places.push(Place::Negative(b'B'))
        }
        _ => places.push(place_of(symbol, by)),
    }
}

fn push_run(places: &mut Items<Place>, run: Run, by: Suppression) -> Result<(), AllocError>
    ensures { OnOk result (places.new
        ≡ places.old ++ spec.repeated_places run.count (spec.symbol_places by run.symbol)) }
{
    for _time in 0..run.count {
        push_symbol(places, run.symbol, by)?;
    }
    Ok(())
}

fn each_place(alloc: Global, runs: &[Run], by: Suppression) -> Result<Items<Place>, AllocError>
    ensures { IfOk result (λ places. places ≡ spec.each_place by runs.now) }
{
    let mut places = Items::new(alloc);
    for run in runs {
        push_run(&mut places, *run, by)?;
    }
    Ok(places)
}

/// The region from the first suppressed place on.
#[tactic(auto, unfolding(crate::specs::Places::region_from))]
fn region_from(runs: &[Run], by: Suppression) -> Region
    requires bounded { 2 * symbol_count runs.now < 2 ^ 128 }
    requires fits { counts.size_of runs.now ≤ most_places }
    ensures { result ≡ spec.region_from by runs.now }
{
    let size = size_of(runs);
    let begin = size.saturating_sub(size_of(from_first(runs, Class::Suppressed(by))));
    let end = size.saturating_sub(size_of(from_first(runs, Class::NinesAndPoints)));
    Region {
        by,
        begin: begin as usize,
        end: end as usize,
    }
}

/// The region of suppressed places, if there is one.
pub fn region_of(runs: &[Run], by: Suppression) -> Option<Region>
    requires bounded { 2 * symbol_count runs.now < 2 ^ 128 }
    requires fits { by ≢ Suppression.Nothing → counts.size_of runs.now ≤ most_places }
    ensures { result ≡ spec.region_of by runs.now }
{
    match by {
        Suppression::Nothing => None,
        _ => Some(region_from(runs, by)),
    }
}

/// The places in order.
pub fn places_of(
    alloc: Global,
    runs: &[Run],
    region: Option<Region>,
    by: Suppression,
) -> Result<Items<Place>, AllocError>
    ensures { IfOk result
        (λ places. places ≡ spec.places_with_floating region (spec.each_place by runs.now)) }
{
    let mut places = each_place(alloc, runs, by)?;
    if let Some(region) = region {
        if region.by.is_floating() && region.begin < places.len() {
            places.set(region.begin, Place::FirstFloating);
        }
    }
    Ok(places)
}
