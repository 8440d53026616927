//! The words that every other crate speaks in: want of memory, bytes, lists, keys and names.
#![tactic(auto)]

mod bytes;
mod count;
mod dates;
mod decimal;
mod gate;
mod items;
mod key;
pub mod laws;
mod name;
mod route;
mod shared;
mod steps;

pub use bytes::{Bytes, NoMemory};
pub use count::short_count;
pub use dates::{LAST_MOMENT, date_text};
pub use gate::{Gate, copied_gate, same_gate};
pub use items::Items;
pub use key::{Key, NameFault, copied_keys, lowered};
pub use name::{ApprovalName, ItemName, Mark, mark_number, same_name};
pub use route::{How, Step, copied_steps, has_forward, keys_of_steps};
pub use shared::SharedBytes;
pub use steps::Steps;
