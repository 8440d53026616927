//! When the hub tries to deliver an item, when it tells the sender of a delay, when it gives up, and when it forgets.
#![tactic(auto)]

pub mod laws;
mod times;

pub use times::{
    Age, DELAY_TIME, MEMORY_TIME, TRY_TIME, age_of, is_due_again, is_old, slot, tried_until,
};
