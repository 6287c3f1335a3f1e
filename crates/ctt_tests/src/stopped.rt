//! Why a test could not be run to its end.

/// An unexpected result of a test.
#[derive(Clone, Copy, Debug)]
pub(crate) enum Stopped {
    /// A text was refused.
    TextRefused,
    /// A desk could not be created.
    NoDesk,
    /// A call of a planner was refused.
    TurnRefused,
    /// A desk could not be closed.
    NotClosed,
}
