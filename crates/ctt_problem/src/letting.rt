//! Dropping a value.

/// Drops a value.
///
/// A function that drops a value with many fields at several exits is expensive to prove, since
/// each exit drops each field. This function drops the value as a whole.
pub fn drop_whole<T: Drop>(_value: T) {}
