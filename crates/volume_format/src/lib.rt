//! How the files of a volume stand in its trees: a catalog, and for each file a tree of its rows and one for each alternate key.
//!
//! Promise: the definitions of what an image holds, and their laws.
#![tactic(auto)]

mod catalog;
mod fault;
mod laws;
mod layout;
mod listing;
mod walking;

pub use catalog::{catalog_tree, listing_part};
pub use fault::to_fault;
pub use laws::{
    catalog_tells, empty_holds, forest_moves, keys_in_order, layouts_fit, listing_reads_back,
    next_holds, one_list_of_files, one_rows, pair_comes, row_comes, rows_fit, value_reads_back,
};
pub use layout::{chained_bytes, tree_layout};
pub use listing::{
    LISTING_BYTES, alternate_root, next_arrival, prime_root, spell_listing, spell_value,
    stored_rows, value_bytes,
};
pub use walking::{first_in, next_in};
