ghost use Rattle.std.specs.Prelude.{◌≡◌};
ghost use Rattle.program_edges.specs.Statuses.{code_of};
ghost use Rattle.program_edges.specs.Written.{status_after};

use report_text::WriteFault;

/// How a run of the program ended.
#[derive(Clone, Copy, PartialEq, Eq)]
pub enum Status {
    /// All that was asked for was written.
    Done,
    /// The words ask for nothing that the program knows.
    Usage,
    /// The input is no script.
    BadScript,
    /// A read of the input failed.
    ReadFault,
    /// A write of the output failed.
    WriteFault,
    NoMemory,
    /// The turns that were allowed are taken, and the journal isn't complete.
    Unfinished,
    /// The report isn't that of a legal, complete journal.
    Rejected,
}

impl Status {
    /// Returns the exit status of the process.
    pub fn code(self) -> u8
        ensures { result ≡ code_of self }
    {
        match self {
            Status::Done => 0,
            Status::Usage => 2,
            Status::BadScript => 3,
            Status::ReadFault => 4,
            Status::WriteFault => 5,
            Status::NoMemory => 6,
            Status::Unfinished => 7,
            Status::Rejected => 8,
        }
    }
}

/// Returns the status after a text was written: `status`, or that of the fault.
pub fn status_after(status: Status, written: Result<(), WriteFault>) -> Status
    ensures { result ≡ status_after status written }
{
    match written {
        Ok(()) => status,
        Err(WriteFault::Failed) => Status::WriteFault,
        Err(WriteFault::NoMemory) => Status::NoMemory,
    }
}
