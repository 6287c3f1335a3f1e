//! What a page passes: files and their names, as parts of one row of bytes.

ghost use Rattle.std.specs.Prelude.{◌≡◌, drop, take};
ghost use Rattle.ctt_web.specs.Asked.{part_of};

/// A part of the bytes that a page passes, up to `end` and without what stands before `start`.
#[repr(C)]
#[derive(Clone, Copy)]
pub struct Part {
    pub start: usize,
    pub end: usize,
}

/// A file that a page passes.
#[repr(C)]
#[derive(Clone, Copy)]
pub struct FileParts {
    pub name: Part,
    pub text: Part,
}

/// What a page asks about. Where two files have one name, the first one below is meant.
#[repr(C)]
pub struct Asked {
    pub instance: FileParts,
    pub solution: FileParts,
    /// The rooms that are barred for courses, if `has_barred` is set.
    pub barred: FileParts,
    /// The slots in which rooms, teachers and courses are blocked, if `has_blocked` is set.
    pub blocked: FileParts,
    /// The names of the days, with commas between them, or nothing.
    pub days: Part,
    pub has_barred: bool,
    pub has_blocked: bool,
}

/// Returns the bytes up to a place, or all if there are fewer.
fn front(bytes: &[u8], end: usize) -> &[u8]
    ensures { result.now ≡ take end bytes.now }
{
    match bytes.get(..end) {
        Some(front) => front,
        None => bytes,
    }
}

/// Returns the bytes from a place on, or none if there are fewer.
fn behind(bytes: &[u8], start: usize) -> &[u8]
    ensures { result.now ≡ drop start bytes.now }
{
    match bytes.get(start..) {
        Some(rest) => rest,
        None => &[],
    }
}

/// Returns a part of the bytes.
#[tactic(auto, unfolding(crate::specs::Asked::part_of))]
pub(crate) fn bytes_at(bytes: &[u8], part: Part) -> &[u8]
    ensures { result.now ≡ part_of bytes.now part }
{
    behind(front(bytes, part.end), part.start)
}
