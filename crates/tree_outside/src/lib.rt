//! Where bytes come from and go to: a source of bytes, a sink for them, and a shelf of files, each as a trait.
//!
//! Each has a count of its faults. A call answers `Failed` only where the count rose in that call, and where an object
//! tells its content, a call says what it does to that. The objects in memory tell all, and fail at the calls that their
//! maker names. The real ones are the edge of what is proved: they tell no content. A `Pending` is the pending file of a
//! shelf as a sink. A `ByteCount` counts what a sink got.
#![tactic(auto)]

mod byte_count;
mod calls;
mod memory;
mod memory_shelf;
mod part_file;
mod pending;
mod real;
mod real_shelf;
mod slice_source;
mod target;
mod traits;
mod unread;

pub use byte_count::ByteCount;
pub use memory::{MemorySink, MemorySource};
pub use memory_shelf::MemoryShelf;
pub use pending::Pending;
pub use real::{RealSink, RealSource};
pub use real_shelf::RealShelf;
pub use slice_source::SliceSource;
pub use traits::{Failed, Shelf, Sink, Source};
