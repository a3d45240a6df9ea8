//! Why the answer of a comparison isn't told.
use ild_script_session::Cut;

/// Why the answer of a comparison isn't told.
#[derive(Clone, Copy)]
pub enum CompareFault {
    /// Memory was wanting for it, and nothing was written.
    Memory,
    /// Its text was cut off.
    Cut(Cut),
}
