//! The program: the call over files, a folder of blocks, and standard output.
#![tactic(auto)]

mod words;

use ild_main_files::{FileInputs, FolderStore, StdSink};
use ild_run::{Status, run};
use std::process::ExitCode;

/// The folder in which blocks are kept, beside where the program runs.
const BLOCKS: &str = "blocks";

fn main(rt: HostRuntime) -> ExitCode {
    let Ok(given) = words::words_given(&rt) else {
        return ExitCode::from(Status::Memory.code());
    };
    let mut inputs = FileInputs::new(&rt);
    let mut store = FolderStore::new(&rt, BLOCKS);
    let mut out = StdSink::new(&rt);
    let status = run(rt.alloc(), &given, &mut inputs, &mut store, &mut out);
    ExitCode::from(status.code())
}
