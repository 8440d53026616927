//! The entries of the hub's log, and their bytes.
#![tactic(auto)]

mod entry;
mod fields;
mod holds;
pub mod laws;
mod places;
mod read;
mod text;
mod writers;

pub use entry::Entry;
pub use read::{
    get_approval_name, get_bytes, get_gate, get_item_name, get_key, get_key_option, get_keys,
    get_origin, get_release, get_why,
};
pub use writers::{
    put_approval_name, put_bytes, put_gate, put_item_name, put_key, put_key_option, put_keys,
    put_origin, put_release, put_why,
};
