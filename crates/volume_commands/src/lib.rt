//! The commands on a volume: `format`, `list`, `dump`, `stat` and `migrate`.
//!
//! Promise: what `list`, `dump` and `stat` print is the listing, the dump and the state of what the
//! volume holds. `migrate` keeps the files, at each moment.
#![tactic(auto)]

mod dump;
mod dump_command;
mod escape;
mod file_line;
mod format_command;
mod laws;
mod list_command;
mod migrate_command;
mod output;
mod stat;
mod stat_command;
mod volume_error;
mod volume_files;
mod volume_state;

pub use dump::dump_text;
pub use dump_command::{FileDump, dump_volume};
pub use escape::bytes_text;
pub use file_line::listing;
pub use format_command::format_volume;
pub use laws::text_determines_bytes;
pub use list_command::list_volume;
pub use migrate_command::migrate_volume;
pub use stat::stat_text;
pub use stat_command::stat_volume;
pub use volume_error::VolumeError;
pub use volume_state::{Layout, VolumeState};
