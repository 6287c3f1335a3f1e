//! A law of findings, for the crates above. It computes nothing.

ghost use Rattle.ctt_findings.specs.Laws.{FindingsAreCounted};

/// Proves that the points of the findings of each kind add up to the report's count. Missing or
/// surplus lectures count by their number, and any other broken hard rule as one.
pub fn findings_are_counted()
    ensures { FindingsAreCounted }
{}
