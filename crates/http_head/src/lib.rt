//! The head of an HTTP/1.0 or HTTP/1.1 request (RFC 9112): whether it has come, what refuses it, and what it asks for.
//!
//! A head is read from all that has come of a request, by `read_head`, or by `Progress::read` where it comes in pieces.
//! The checks come in this order, and the first that fails tells the fault:
//!
//! 1. The head is refused as malformed, has more than 64 fields or more than 16,384 octets (400).
//! 2. No route matches its target (404).
//! 3. The route has another method (405).
//! 4. A PUT has no Content-Length, or a request has Transfer-Encoding (411).
//! 5. Content-Length isn't 1 to 9 digits, or two of them differ (400).
//! 6. Content-Length is more than 16,777,216 (413).
//!
//! Whether the parts of the path are keys, names and verdicts is told by `deed_of`. A Host field isn't asked for.
#![tactic(auto)]

mod checks;
mod deed;
mod fields;
mod head;
pub mod laws;
mod limits;
mod octets;
mod progress;
mod route;
mod routes;
mod target;

pub use deed::{Deed, deed_of};
pub use head::{Head, read_head};
pub use limits::{MOST_FIELDS, MOST_HEAD_OCTETS};
pub use progress::Progress;
pub use route::{HeadFault, MOST_BODY_OCTETS, Route, RoutedHead};
pub use routes::Routes;
