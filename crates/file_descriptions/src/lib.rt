//! The files of a program, as their SELECTs and FDs say them.
#![tactic(auto)]

mod description;
mod file;
mod files;
mod keys;
mod source;

pub use file::ProgramFile;
pub use files::ProgramFiles;
