//! The outcomes of a job.

/// The outcome of a job that ended without a fault.
#[derive(Clone, Copy, PartialEq, Eq)]
pub enum Outcome {
    /// The job was done.
    Done,
    /// A reply in the journal differs from that of the audit, or a comparison was given a file that
    /// is refused.
    Differs,
    /// A solution that was judged strictly is not lawful.
    Unlawful,
    /// A solution that was judged strictly is lawful but not complete.
    Incomplete,
}

impl Outcome {
    ghost use Rattle.std.specs.Prelude.{◌≡◌};
    ghost use Rattle.ctt_files.specs.Outcomes.{outcome_status};

    /// Returns the exit status of the program.
    pub fn status(self) -> u8
        ensures { result ≡ outcome_status self }
    {
        match self {
            Outcome::Done => 0,
            Outcome::Differs => 1,
            Outcome::Unlawful => 4,
            Outcome::Incomplete => 5,
        }
    }
}
