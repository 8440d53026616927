//! The responses of HTTP to what an office answers: what it shows as JSON, and each response to the octet.
//!
//! JSON has no white space, and its members stand in the byte order of their keys.
#![tactic(auto)]

mod answers;
mod data;
mod refusal;
mod response;
mod rows;
mod text;

pub use answers::{
    already_answer, approvals_answer, decide_answer, ended_answer, epoch_answer, item_answer,
    items_answer, queue_answer, stop_response, turn_answer,
};
pub use refusal::{Refusal, refusal_response};
pub use response::{Media, Response, memory_text, response_text};
