//! How a call ended.
ghost use Rattle.std.specs.Prelude.{◌≡◌};
ghost use Rattle.ild_run.specs.Fault.{code_of};

/// How a call ended.
#[derive(Clone, Copy, Debug, PartialEq, Eq)]
pub enum Status {
    /// All was done, and no line was refused.
    Done,
    /// All was done, and a line was refused.
    Refused,
    /// The words have no form.
    Words,
    /// The schema is at fault.
    Schema,
    /// No typed value stands under the root.
    Root,
    /// An input is absent or too long, or can't be read.
    Input,
    /// The store failed outside a line.
    StoreFault,
    /// The sink failed.
    SinkFault,
    /// Memory is wanting outside a line.
    Memory,
    /// A value is refused.
    Value,
}

impl Status {
    /// The number of the status, which the program ends with.
    pub fn code(self) -> u8
        ensures { result ≡ code_of self }
    {
        match self {
            Status::Done => 0,
            Status::Refused => 1,
            Status::Words => 2,
            Status::Schema => 3,
            Status::Root => 4,
            Status::Input => 5,
            Status::StoreFault => 6,
            Status::SinkFault => 7,
            Status::Memory => 8,
            Status::Value => 9,
        }
    }
}
