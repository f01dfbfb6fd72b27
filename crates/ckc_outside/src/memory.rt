//! Objects in memory, which fail at the calls that are listed.
mod plan;
mod sink;
mod source;
mod store;

pub use sink::MemSink;
pub use source::MemSource;
pub use store::MemStore;
