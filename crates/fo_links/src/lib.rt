//! The edges that bytes and times come from and go to: `Source`, `Sink` and `Clock`, in memory and over the standard library. An `Inbox` keeps what
//! came from a source until it is used up.
//!
//! Proved: what each call gives, takes and leaves where the source, the sink or the clock tells it; that a fault is answered only
//! where the count of faults rose. Not proved: which bytes and which times the system's own streams and clock give.
#![tactic(auto)]

mod clock;
mod inbox;
mod memory;
mod system;
mod traits;

pub use clock::{MemClock, SetClock, SystemClock};
pub use inbox::Inbox;
pub use memory::{MemSink, MemSource};
pub use system::{ReadSource, WriteSink};
pub use traits::{Clock, Failed, Sink, Source};
