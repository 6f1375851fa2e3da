//! The outside as the program sees it: where bytes come from and where they go.
//!
//! The main types are the traits [`Source`], [`Sink`] and [`Folder`]:
//! `write_all(&mut sink, b"ok\n")?` hands a whole text over. A caller may rely on one sentence: a
//! call answers [`Failed`] only where the count of faults of its object rose in that call. The
//! README goes on from here.
#![tactic(auto)]

mod calls;
mod failed;
mod folder;
mod mem_folder;
mod mem_sink;
mod mem_source;
mod sink;
mod source;

pub use failed::Failed;
pub use folder::Folder;
pub use mem_folder::MemFolder;
pub use mem_sink::MemSink;
pub use mem_source::MemSource;
pub use sink::{Sink, write_all};
pub use source::{ReadAllError, Source, read_all};
