//! The keywords of calls, replies and faults.

ghost use Rattle.std.specs.Prelude.{◌≡◌};
ghost use Rattle.std.specs.Str.{bytes_eq};
ghost use Rattle.ctt_script.specs.Kinds.{edit_kind, pattern_kind, slot_pattern_kind, look_kind, call_kind, step_kind, reply_kind, fault_kind};

/// The kind of an edit.
#[derive(Clone, Copy)]
pub(crate) enum EditKind {
    Place,
    Move,
    Swap,
    Reroom,
    Drop,
}

/// The kind of a look.
#[derive(Clone, Copy)]
pub(crate) enum LookKind {
    Course,
    Slot,
    Teacher,
    Curriculum,
    CourseCost,
    Cost,
    Price,
    Missing,
    Cheapest,
    Slots,
}

/// The kind of an edit pattern.
#[derive(Clone, Copy)]
pub(crate) enum PatternKind {
    Place,
    Move,
    Swap,
    Reroom,
}

/// The kind of an edit pattern that leads to any slot.
#[derive(Clone, Copy)]
pub(crate) enum SlotPatternKind {
    Place,
    Move,
    Swap,
}

/// The kind of a call.
#[derive(Clone, Copy)]
pub(crate) enum CallKind {
    Edit(EditKind),
    Look(LookKind),
}

/// The kind of a planner's step.
#[derive(Clone, Copy)]
pub(crate) enum StepKind {
    Open,
    Commit,
    Refresh,
    Abandon,
    Peek,
    Status,
    Ask(CallKind),
}

/// The kind of a reply.
#[derive(Clone, Copy)]
pub(crate) enum ReplyKind {
    Done,
    Refused,
    Lectures,
    Costs,
    Price,
    Missing,
    Edits,
    Slots,
}

/// The kind of an edit's fault.
#[derive(Clone, Copy)]
pub(crate) enum FaultKind {
    NotPlaced,
    SameSlot,
    SameCourse,
    AlreadyThere,
    CourseFull,
    Unavailable,
    Barred,
    Blocked,
    Clash,
    RoomTaken,
}

/// Returns whether a word equals a text. Callers pass a literal, so that once inlined its bytes are
/// compared in place, without a call.
#[inline(always)]
#[tactic(auto, using(crate::proofs::KindLemmas::compared))]
pub fn is_word(word: &str, text: &str) -> bool
    ensures { result ≡ bytes_eq word.now text.now }
{
    let (bytes, wanted) = (word.as_bytes(), text.as_bytes());
    if bytes.len() != wanted.len() {
        return false;
    }
    let mut at = 0;
    while at < wanted.len() {
        if bytes[at] != wanted[at] {
            return false;
        }
        at += 1;
    }
    true
}

/// Returns the kind of edit that a keyword stands for.
#[tactic(auto, unfolding(crate::specs::Kinds::edit_kind))]
pub(crate) fn edit_kind(word: &str) -> Option<EditKind>
    ensures { result ≡ edit_kind word.now }
{
    if is_word(word, "place") {
        Some(EditKind::Place)
    } else if is_word(word, "move") {
        Some(EditKind::Move)
    } else if is_word(word, "swap") {
        Some(EditKind::Swap)
    } else if is_word(word, "reroom") {
        Some(EditKind::Reroom)
    } else if is_word(word, "drop") {
        Some(EditKind::Drop)
    } else {
        None
    }
}

/// Returns the kind of look that a keyword stands for.
#[tactic(auto, unfolding(crate::specs::Kinds::look_kind))]
pub(crate) fn look_kind(word: &str) -> Option<LookKind>
    ensures { result ≡ look_kind word.now }
{
    if is_word(word, "course") {
        Some(LookKind::Course)
    } else if is_word(word, "slot") {
        Some(LookKind::Slot)
    } else if is_word(word, "teacher") {
        Some(LookKind::Teacher)
    } else if is_word(word, "curriculum") {
        Some(LookKind::Curriculum)
    } else if is_word(word, "coursecost") {
        Some(LookKind::CourseCost)
    } else if is_word(word, "cost") {
        Some(LookKind::Cost)
    } else if is_word(word, "price") {
        Some(LookKind::Price)
    } else if is_word(word, "missing") {
        Some(LookKind::Missing)
    } else if is_word(word, "cheapest") {
        Some(LookKind::Cheapest)
    } else if is_word(word, "slots") {
        Some(LookKind::Slots)
    } else {
        None
    }
}

/// Returns the kind of edit pattern that a keyword stands for.
#[tactic(auto, unfolding(crate::specs::Kinds::pattern_kind))]
pub(crate) fn pattern_kind(word: &str) -> Option<PatternKind>
    ensures { result ≡ pattern_kind word.now }
{
    if is_word(word, "place") {
        Some(PatternKind::Place)
    } else if is_word(word, "move") {
        Some(PatternKind::Move)
    } else if is_word(word, "swap") {
        Some(PatternKind::Swap)
    } else if is_word(word, "reroom") {
        Some(PatternKind::Reroom)
    } else {
        None
    }
}

/// Returns the kind of edit pattern to any slot that a keyword stands for.
#[tactic(auto, unfolding(crate::specs::Kinds::slot_pattern_kind))]
pub(crate) fn slot_pattern_kind(word: &str) -> Option<SlotPatternKind>
    ensures { result ≡ slot_pattern_kind word.now }
{
    if is_word(word, "place") {
        Some(SlotPatternKind::Place)
    } else if is_word(word, "move") {
        Some(SlotPatternKind::Move)
    } else if is_word(word, "swap") {
        Some(SlotPatternKind::Swap)
    } else {
        None
    }
}

/// Returns the kind of call that a keyword stands for.
#[tactic(auto, unfolding(crate::specs::Kinds::call_kind))]
pub(crate) fn call_kind(word: &str) -> Option<CallKind>
    ensures { result ≡ call_kind word.now }
{
    match edit_kind(word) {
        Some(kind) => Some(CallKind::Edit(kind)),
        None => Some(CallKind::Look(look_kind(word)?)),
    }
}

/// Returns the kind of step that a keyword stands for.
#[inline(always)]
#[tactic(auto, unfolding(crate::specs::Kinds::step_kind))]
pub(crate) fn step_kind(word: &str) -> Option<StepKind>
    ensures { result ≡ step_kind word.now }
{
    if is_word(word, "open") {
        Some(StepKind::Open)
    } else if is_word(word, "commit") {
        Some(StepKind::Commit)
    } else if is_word(word, "refresh") {
        Some(StepKind::Refresh)
    } else if is_word(word, "abandon") {
        Some(StepKind::Abandon)
    } else if is_word(word, "peek") {
        Some(StepKind::Peek)
    } else if is_word(word, "status") {
        Some(StepKind::Status)
    } else {
        Some(StepKind::Ask(call_kind(word)?))
    }
}

/// Returns the kind of reply that a keyword stands for.
#[tactic(auto, unfolding(crate::specs::Kinds::reply_kind))]
pub(crate) fn reply_kind(word: &str) -> Option<ReplyKind>
    ensures { result ≡ reply_kind word.now }
{
    if is_word(word, "done") {
        Some(ReplyKind::Done)
    } else if is_word(word, "refused") {
        Some(ReplyKind::Refused)
    } else if is_word(word, "lectures") {
        Some(ReplyKind::Lectures)
    } else if is_word(word, "costs") {
        Some(ReplyKind::Costs)
    } else if is_word(word, "price") {
        Some(ReplyKind::Price)
    } else if is_word(word, "missing") {
        Some(ReplyKind::Missing)
    } else if is_word(word, "prices") {
        Some(ReplyKind::Edits)
    } else if is_word(word, "slots") {
        Some(ReplyKind::Slots)
    } else {
        None
    }
}

/// Returns the kind of fault that a keyword stands for.
#[tactic(auto, unfolding(crate::specs::Kinds::fault_kind))]
pub(crate) fn fault_kind(word: &str) -> Option<FaultKind>
    ensures { result ≡ fault_kind word.now }
{
    if is_word(word, "notplaced") {
        Some(FaultKind::NotPlaced)
    } else if is_word(word, "sameslot") {
        Some(FaultKind::SameSlot)
    } else if is_word(word, "samecourse") {
        Some(FaultKind::SameCourse)
    } else if is_word(word, "already") {
        Some(FaultKind::AlreadyThere)
    } else if is_word(word, "full") {
        Some(FaultKind::CourseFull)
    } else if is_word(word, "unavailable") {
        Some(FaultKind::Unavailable)
    } else if is_word(word, "barred") {
        Some(FaultKind::Barred)
    } else if is_word(word, "blocked") {
        Some(FaultKind::Blocked)
    } else if is_word(word, "clash") {
        Some(FaultKind::Clash)
    } else if is_word(word, "roomtaken") {
        Some(FaultKind::RoomTaken)
    } else {
        None
    }
}
