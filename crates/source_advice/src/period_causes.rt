//! Missing periods.

use crate::cause::Cause;
use crate::view::View;

/// The missing period before the place, or after a name at it.
pub fn period_cause(view: View<'_>) -> Option<Cause> {
    if is_period_missing(view) {
        return Some(Cause::PeriodBeforeLine);
    }
    if is_paragraph_without_period(view) {
        return Some(Cause::PeriodAfterName);
    }
    None
}

/// Whether the place begins a line in area A, or an entry, and no period is before it.
fn is_period_missing(view: View<'_>) -> bool {
    if view.is_period(view.before(1)) || view.at == 0 || !view.is_first_of_line(view.at) {
        return false;
    }
    if view.is_in_area_a(view.at) {
        return true;
    }
    view.is_numeric(Some(view.at)) && !view.is_in_procedures(view.at)
}

/// Whether a word is alone in its line, in area A, after a period.
fn is_paragraph_without_period(view: View<'_>) -> bool {
    view.is_word(Some(view.at))
        && view.is_in_area_a(view.at)
        && view.is_period(view.before(1))
        && view.line(view.after(1)) != view.line(Some(view.at))
}
