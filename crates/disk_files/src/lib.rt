//! A folder of files as one value, with what a stop at any moment may leave of it.
#![tactic(auto)]

mod dir;
mod either;
mod fuse;
mod keep;
mod laws;
mod memory;
mod memory_file;
mod past;
mod real;

pub use dir::{Dir, DirError, FileName, FileNo, Writing};
pub use either::EitherDir;
pub use fuse::Fuse;
pub use keep::Keep;
pub use laws::{inside_calls, stop_settles, sync_keeps};
pub use memory::MemoryDir;
pub use real::RealDir;
