// How a command ends.
ghost use Rattle.std.specs.Prelude.{◌≡◌};
ghost use Rattle.command_line.specs.RunLimits.{run_limit_number, run_limit_name};
ghost use Rattle.command_line.specs.Endings.{ending_of as ending_of_fault, status_of};

use spv_words::{Fault, Limit, Refusal};

/// What of a run there may be too much of: its invocations, or its events with their scalars.
#[derive(Clone, Copy, Debug, PartialEq, Eq)]
pub enum RunLimit {
    Invocations,
    Events,
}

impl RunLimit {
    /// The largest number that is taken.
    pub fn number(&self) -> u32
        ensures { result ≡ run_limit_number self.now }
    {
        match self {
            RunLimit::Invocations => 1024,
            RunLimit::Events => 1048576,
        }
    }

    /// The quantity's name.
    pub fn name(&self) -> &'static str
        ensures { result.now ≡ run_limit_name self.now }
    {
        match self {
            RunLimit::Invocations => "invocations",
            RunLimit::Events => "events",
        }
    }
}

/// How a command ended.
#[derive(Clone, Copy, Debug, PartialEq, Eq)]
pub enum Ending {
    Done,
    Usage,
    Refused(Refusal),
    Limit(Limit),
    RunLimit(RunLimit),
    ReadFault,
    WriteFault,
    Memory,
}

impl Ending {
    /// The exit status.
    pub fn status(&self) -> u8
        ensures { result ≡ status_of self.now }
    {
        match self {
            Ending::Done => 0,
            Ending::Usage => 1,
            Ending::Refused(_) => 2,
            Ending::Limit(_) | Ending::RunLimit(_) => 3,
            Ending::ReadFault => 4,
            Ending::WriteFault => 5,
            Ending::Memory => 6,
        }
    }
}

/// How a command ends over a module with a fault.
pub fn ending_of(fault: Fault) -> Ending
    ensures { result ≡ ending_of_fault fault }
{
    match fault {
        Fault::Refused(refusal) => Ending::Refused(refusal),
        Fault::Limit(limit) => Ending::Limit(limit),
        Fault::Memory => Ending::Memory,
    }
}
