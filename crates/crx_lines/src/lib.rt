//! Lines from any reader, counted writes to any writer, and the devices that bytes are read from and written
//! to. Faults and limits are those of crx_base.
#![tactic(auto)]

pub mod device;
pub mod feed;
pub mod laws;
pub mod line;
pub mod phase;
mod seek;
pub mod uninterrupted;
mod window;
pub mod write;

pub use device::{ReadFailed, Sink, Source, Std, WriteFailed, open_file, reads_may_wait};
pub use line::{Line, LineReader};
pub use uninterrupted::Uninterrupted;
pub use write::write_all_counted;
