//! The outside of the compiler: a source of input, a sink of output and a store of named files, each with a count
//! of its faults, as traits; objects in memory that fail where a test wants them to; and the real objects.
#![tactic(auto)]

mod memory;
mod real;
mod traits;

pub use memory::{MemSink, MemSource, MemStore};
pub use real::{RealSink, RealSource, RealStore};
pub use traits::{Failed, Fetched, Sink, Source, Store, StoreError};
