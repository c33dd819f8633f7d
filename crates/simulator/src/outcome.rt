ghost use Rattle.std.specs.Prelude.{◌≡◌};
ghost use Rattle.simulator.specs.Outcomes.{status_of, status_of_run};

use check_program::Finding;
use program_edges::Status;
use sim_drive::Device;

/// The outcome of the command line and its input, before anything is written.
#[derive(Drop)]
pub enum Outcome {
    Usage,
    Help,
    Version,
    ReadFault,
    /// A broken script: the first broken line, and on it the least broken rule.
    BadScript { line: u32, rule: u32 },
    /// A device after `turns` turns.
    Ran { device: Device, turns: u64 },
    /// The finding on a script and the report after it.
    Judged(Finding),
}

impl Outcome {
    /// Returns the exit status of the outcome, if all its text is written.
    pub fn status(&self) -> Status
        ensures { result ≡ status_of self.now }
    {
        match self {
            Outcome::Usage => Status::Usage,
            Outcome::Help | Outcome::Version => Status::Done,
            Outcome::ReadFault => Status::ReadFault,
            Outcome::BadScript { .. } => Status::BadScript,
            Outcome::Ran { device, .. } => status_of_run(device),
            Outcome::Judged(finding) => finding.status(),
        }
    }
}

fn status_of_run(device: &Device) -> Status
    ensures { result ≡ status_of_run device.now }
{
    if device.over() {
        Status::Done
    } else {
        Status::Unfinished
    }
}
