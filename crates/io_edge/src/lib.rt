//! The outside world as two traits, fakes of it in memory, and the adapters to files and streams.
//!
//! A `Shelf` is read and a `Sink` is written. Each counts its faults, so that a caller can tell a
//! fault of the outside from an answer of its own. Begin with `specs/Outside.antt`, which says what
//! a read and a write do; `specs/Fakes.antt` says what the fakes do beyond that. `put_text` and
//! `PieceBuffer` cut texts of any length into the pieces that a sink takes, by `specs/Puts.antt`.
#![tactic(auto)]

mod file_shelf;
mod memory_shelf;
mod memory_sink;
mod piece_buffer;
mod shelf;
mod sink;
mod steady_sink;
mod stream_sink;
mod text;
mod texts;

pub use file_shelf::FileShelf;
pub use memory_shelf::MemoryShelf;
pub use memory_sink::MemorySink;
pub use piece_buffer::PieceBuffer;
pub use shelf::{Shelf, ShelfEnd};
pub use sink::{Sink, SinkEnd};
pub use steady_sink::SteadySink;
pub use stream_sink::StreamSink;
pub use text::put_text;
pub use texts::add_texts;
