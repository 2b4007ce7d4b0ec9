//! The outside as traits: what bytes are read from and written to, connections and what they come from, origins, clocks
//! and turnstiles, with a count of faults each where calls can fail; versions of them in memory and over the standard
//! streams; and a reader of lines.
#![tactic(auto)]

mod buffer;
mod clock;
mod echo;
mod failure;
mod line_reader;
mod link;
mod listener;
mod memory_door;
mod memory_link;
mod origin;
mod shown_link;
mod sink;
mod source;
mod standard;
mod text_sink;
mod text_source;
mod turnstile;

pub use clock::{Clock, ListClock, Moments};
pub use echo::{EchoOrigin, FailingOrigin};
pub use failure::Failed;
pub use line_reader::{LineReader, LineStep};
pub use link::Link;
pub use listener::Listener;
pub use memory_door::MemoryDoor;
pub use memory_link::{MemoryLink, MemoryLinks};
pub use origin::{AskFault, Origin};
pub use sink::{Sink, write_all};
pub use source::Source;
pub use standard::{StderrSink, StdinSource, StdoutSink};
pub use text_sink::TextSink;
pub use text_source::{Numbers, TextSource};
pub use turnstile::{OpenTurnstile, Point, Turnstile};
