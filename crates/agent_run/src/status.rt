//! How a run ended.
ghost use Rattle.std.specs.Prelude.{◌≡◌, ◌||◌};
ghost use Rattle.agent_run.specs.Headline.{status_of};
ghost use Rattle.agent_run.specs.Status.{code_of};

use agent_workers::Ending;

/// How a run ended.
#[derive(Clone, Copy, Debug, PartialEq, Eq)]
pub enum Status {
    /// The input was read to its end, and nothing is buffered: what was read was written, dropped or
    /// refused, as the account says.
    Done,
    /// The words are no command.
    Usage,
    /// The configuration was refused.
    Config,
    /// A read failed.
    ReadFault,
    /// A place wasn't opened.
    OpenFault,
    /// Metrics were left at an output that failed.
    Left,
    /// The journal or the report wasn't written whole.
    ReportFault,
    /// A limit of the run was reached.
    Limit,
    /// No memory was left.
    OutOfMemory,
}

impl Status {
    /// The program's exit status.
    pub fn code(self) -> u8
        ensures { result ≡ code_of self }
    {
        match self {
            Status::Done => 0,
            Status::Usage => 2,
            Status::Config => 3,
            Status::ReadFault => 4,
            Status::OpenFault => 5,
            Status::Left => 6,
            Status::ReportFault => 7,
            Status::Limit => 8,
            Status::OutOfMemory => 9,
        }
    }
}

/// The status of a run that came to this end, given whether the put of the report failed: the first that has its
/// cause of Limit, ReportFault, ReadFault and Left; Done where none has.
pub fn run_status(ending: &Ending, report_failed: bool) -> Status
    ensures { result ≡ status_of ending.now.limit ending.now.read_fault
        (ending.now.journal_fault || report_failed) ending.now.left }
{
    if ending.limit {
        Status::Limit
    } else if ending.journal_fault || report_failed {
        Status::ReportFault
    } else if ending.read_fault {
        Status::ReadFault
    } else if ending.left {
        Status::Left
    } else {
        Status::Done
    }
}
