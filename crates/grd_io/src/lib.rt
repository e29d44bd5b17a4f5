//! Where bytes come from and where they go: shelves hold files by name, and sinks take bytes.
//!
//! `read_whole` answers the bytes of a file, or that it has more than the limit, and `write_whole` writes
//! all bytes of a piece, or else a front of it; `append_whole` does so for a file. A failure comes only where the device's count of such
//! failures rose, or stands at its last value; reading may also want memory. The devices in memory tell
//! their bytes. Those of the host tell none, and count their failures.
//!
//! | file | what it has |
//! |---|---|
//! | `shelf.rt` | the trait of shelves |
//! | `sink.rt` | the trait of sinks |
//! | `whole.rt` | whole reads and whole writes, over any shelf and any sink |
//! | `memory.rt` | a shelf and a sink in memory |
//! | `calls.rt` | the count of their calls, and which of these fail |
//! | `files.rt` | the files of a shelf in memory |
//! | `host.rt` | the shelf and the sink of the host |
//! | `names.rt` | the names that failed |
//! | `faults.rt` | why a call was refused |
//!
//! The definitions that contracts cite are in `specs/`: `Bytes.antt`, `Causes.antt`, `Counts.antt`,
//! `Devices.antt`, `Faults.antt`.

#![tactic(auto)]

mod calls;
mod faults;
mod files;
mod host;
mod memory;
mod names;
mod shelf;
mod sink;
mod whole;

pub use faults::{Failed, ReadFault, ShelfFault};
pub use host::{HostShelf, HostSink};
pub use memory::{MemoryShelf, MemorySink};
pub use shelf::Shelf;
pub use sink::Sink;
pub use whole::{append_whole, read_whole, write_whole};
