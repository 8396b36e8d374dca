//! Rows of single calls on stations and volumes as tests: bytes on the device, and how often and in which order it is called.
//! Nothing here is built into the product.
#![tactic(auto)]

#[cfg(test)]
mod asserted;
#[cfg(test)]
mod image;
#[cfg(test)]
mod opened;
#[cfg(test)]
mod page_cache_tests;
#[cfg(test)]
mod page_full_tests;
#[cfg(test)]
mod page_tests;
#[cfg(test)]
mod root_tests;
#[cfg(test)]
mod station_tests;
#[cfg(test)]
mod steps;
