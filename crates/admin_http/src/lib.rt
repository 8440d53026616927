//! One exchange of HTTP/1.0 or HTTP/1.1 (RFC 9112): a request is read from any source, its calls are made on any office, and
//! the response is written to any sink.
//!
//! What a request asks for, and what refuses it, follows from the whole input and not from the pieces that it comes in. A
//! request that is refused asks nothing of the office or the clock.
#![tactic(auto)]

mod answer;
mod exchange_end;
mod head;
pub mod laws;
mod pieces;
mod reply;
mod request;
mod whole;

pub use exchange_end::ExchangeEnd;
pub use whole::exchange;
