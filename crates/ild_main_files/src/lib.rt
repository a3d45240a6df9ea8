//! The outside of the program: files as inputs, a folder of blocks as a store, and standard output as a sink.
#![tactic(auto)]

mod cause;
mod files;
mod folder;
mod found;
mod load;
mod name;
mod output;
mod own;
mod part;

pub use files::FileInputs;
pub use folder::FolderStore;
pub use output::StdSink;
