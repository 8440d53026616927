//! The pickup folder: files that become submissions.
#![tactic(auto)]

mod addresses;
mod file_dir;
mod file_names;
mod folder;
mod header;
pub mod laws;
mod line_ends;
mod listing;
mod memory;
mod pickup;
mod taking;
mod trims;

pub use file_dir::FileDir;
pub use file_names::{bad_name, begun_name, begun_stem, new_stem, order_of};
pub use folder::{DirFault, PickupDir};
pub use memory::{MemoryDir, have_own_names};
pub use pickup::{PickupBad, pickup_of};
pub use taking::{PickupEnd, PickupFault, take_files};
