//! The lines of a trace: what one line of the input is (a deployment, a request or nothing), and how each answer is
//! written.
#![tactic(auto)]

mod changed;
mod headers;
mod item;
mod laws;
mod made;
mod members;
mod output;
mod reader;
mod refusal;
mod reply;
mod request;
mod sent;
mod steps;
mod told;

pub use item::{LineItem, Recorded};
pub use laws::{causes_are_unique, change_is_a_difference, items_have_no_cause};
pub use made::{Made, made_line};
pub use members::{has_members, text_of};
pub use output::{LineParts, line_of, push_bad_line, push_deploy_line, push_line};
pub use reader::read_item;
pub use refusal::{BadCause, LineFault};
