//! HTTP heads and replies: requests are read off a link or out of bytes by one reading of a head, which is that of
//! `httparse`, and every refusal has its cause; the bytes of a reply.
#![tactic(auto)]

mod causes;
mod framing;
mod heads;
mod links;
mod places;
mod replies;
mod requests;

pub use causes::HeadFault;
pub use links::read_request;
pub use replies::reply_bytes;
pub use requests::{answers_are_exact, request_of};
