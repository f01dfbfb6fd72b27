//! The real objects: standard input, standard output and error, and files. They count the failures of the system
//! and tell no content.
mod replace;
mod sink;
mod source;
mod store;

pub use sink::RealSink;
pub use source::RealSource;
pub use store::RealStore;
