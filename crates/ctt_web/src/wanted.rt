//! What a page wants to know.

/// What a page wants to know of a solution: what a call of the program prints of it.
#[derive(Clone, Copy, PartialEq, Eq)]
pub(crate) enum Wanted {
    /// The report with the lines of all findings: `check --explain`.
    Report,
    /// The report with the sentences of all findings: `check --sentences`.
    Sentences,
    /// The report as JSON with the name of the file, a row of a comparison: `check --json --name`.
    Row,
    /// The findings as a table: `check --csv --explain`.
    Findings,
    /// The page of all weeks: `page`.
    Page,
}
