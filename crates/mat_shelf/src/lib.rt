//! What the program asks of files and of sinks: traits whose calls count their faults, objects in
//! memory that fail where they are told to or never, and the real files and streams.
#![tactic(auto)]

mod file_shelf;
mod mem_shelf;
mod mem_sink;
mod named_file;
mod stream_sink;
mod sure_shelf;
mod sure_sink;
mod traits;

pub use file_shelf::FileShelf;
pub use mem_shelf::MemShelf;
pub use mem_sink::MemSink;
pub use named_file::NamedFile;
pub use stream_sink::StreamSink;
pub use sure_shelf::SureShelf;
pub use sure_sink::SureSink;
pub use traits::{Failed, Shelf, Sink};
