//! Tests of `host_volume`, on files of the folder that they run in. Nothing here is built into the product.
#![tactic(auto)]

#[cfg(test)]
mod asserted;
#[cfg(test)]
mod devices;
#[cfg(test)]
mod failure_tests;
#[cfg(test)]
mod host_files;
#[cfg(test)]
mod opening_tests;
#[cfg(test)]
mod replacement_tests;
#[cfg(test)]
mod root_tests;
#[cfg(test)]
mod write_tests;
