//! Tests of the commands on a volume. Nothing here is built into the product.
#![tactic(auto)]

#[cfg(test)]
mod asserted;
#[cfg(test)]
mod copy_tests;
#[cfg(test)]
mod dump_tests;
#[cfg(test)]
mod list_tests;
#[cfg(test)]
mod load_tests;
#[cfg(test)]
mod narrow_writer;
#[cfg(test)]
mod printing;
#[cfg(test)]
mod stat_tests;
#[cfg(test)]
mod unseen;
#[cfg(test)]
mod volume;
