//! Finding the edit that undoes a draft's last accepted edit.

ghost use Rattle.std.specs.Prelude.{◌≡◌, ◌<◌, ◌≤◌, ◌++◌, ◌∷◌, [], length, take, IfOk, IfSome, OnOk};
ghost use Rattle.ctt_problem.specs.Problem.{course_count, slot_count};
ghost use Rattle.ctt_board.specs.Changes.{apply_all, room_at, room_by};
ghost use Rattle.ctt_edits.specs.Edits.{EditFits};
ghost use Rattle.ctt_draft.specs.Drafts.{calls_of, changes};
ghost use Rattle.ctt_draft.specs.Undo.{all_cells};
ghost use Rattle.ctt_draft.specs.Undoing.{inverse, is_given, stacked, top, undoing};

use crate::draft::Draft;
use ctt_board::{Cell, Change, Rooms, Sheet, Timetable};
use ctt_edits::Edit;
use ctt_problem::{CourseNo, NoMemory, RoomNo, SlotNo};

/// Returns whether an edit equals the top of the stack.
fn is_top(stack: &[Edit], edit: &Edit) -> bool
    ensures { result ≡ is_given edit.now (top stack.now) }
{
    match stack.last() {
        Some(last) => last == edit,
        None => false,
    }
}

fn add<T: Copy>(list: &mut Vec<T>, one: &T) -> Result<(), NoMemory>
    ensures { OnOk result (list.new.items ≡ list.old.items ++ one.now ∷ []) }
{
    Ok(list.push(*one)?)
}

/// Pops the top of the stack if the edit equals it; otherwise pushes the edit's inverse, if there
/// is one.
fn restack(stack: &mut Vec<Edit>, edit: &Edit, inverse: Option<Edit>) -> Result<(), NoMemory>
    ensures { OnOk result (stack.new.items ≡ stacked edit.now inverse stack.old.items) }
{
    if is_top(stack.as_slice(), edit) {
        let _taken = stack.pop();
        return Ok(());
    }
    match inverse {
        Some(inverse) => add(stack, &inverse),
        None => Ok(()),
    }
}

/// Returns the room of a course in a slot after these cells, given its room before them.
fn room_after(
    cells: &[Cell],
    course: CourseNo,
    slot: SlotNo,
    room: Option<RoomNo>,
) -> Option<RoomNo>
    ensures { result ≡ room_by cells.now course slot room }
{
    let mut last = room;
    for cell in cells {
        if cell.course == course && cell.slot == slot {
            last = cell.room;
        }
    }
    last
}

/// Returns the room of a course in a slot after these changes, given its room before them.
fn room_after_all(
    changes: &[Change],
    course: CourseNo,
    slot: SlotNo,
    room: Option<RoomNo>,
) -> Option<RoomNo>
    ensures { result ≡ room_by (all_cells changes.now) course slot room }
{
    let mut last = room;
    for change in changes {
        last = room_after(change.cells(), course, slot, last);
    }
    last
}

impl<'i, S: Sheet<'i>> Draft<'i, S> {
    /// Returns the room that a course had in a slot after the first `made` changes, if it had one.
    fn room_before(&self, made: usize, course: CourseNo, slot: SlotNo) -> Option<RoomNo>
        requires made { made ≤ length (changes self.now.problem self.now.base
            (calls_of self.now.asked)) }
        requires course { course < course_count self.now.problem }
        requires slot { slot < slot_count self.now.problem }
        ensures { result ≡ room_at course slot (apply_all (take made
            (changes self.now.problem self.now.base (calls_of self.now.asked))) self.now.base) }
    {
        self.lawful();
        let present = self.present().room_at(course, slot);
        let base = room_after(self.undo(), course, slot, present);
        room_after_all(&self.changes()[..made], course, slot, base)
    }

    /// Returns the edit that undoes an edit made after the first `made` changes.
    fn inverse(&self, made: usize, edit: &Edit) -> Option<Edit>
        requires made { made ≤ length (changes self.now.problem self.now.base
            (calls_of self.now.asked)) }
        requires fits { EditFits self.now.problem edit.now }
        ensures { result ≡ inverse (apply_all (take made (changes self.now.problem self.now.base
            (calls_of self.now.asked))) self.now.base) edit.now }
    {
        match *edit {
            Edit::Place(course, slot, _) => Some(Edit::Drop(course, slot)),
            Edit::Move(course, slot, target, _) => {
                let room = self.room_before(made, course, slot)?;
                Some(Edit::Move(course, target, slot, room))
            }
            Edit::Swap(course, slot, other, other_slot) => {
                Some(Edit::Swap(course, other_slot, other, slot))
            }
            Edit::Reroom(course, slot, _) => {
                let room = self.room_before(made, course, slot)?;
                Some(Edit::Reroom(course, slot, room))
            }
            Edit::Drop(course, slot) => {
                let room = self.room_before(made, course, slot)?;
                Some(Edit::Place(course, slot, room))
            }
        }
    }

    /// Returns the edit that undoes the last accepted edit that is not undone yet, if there is one.
    pub fn undoing(&self) -> Result<Option<Edit>, NoMemory>
        ensures edit { IfOk result (λ edit.
            edit ≡ undoing self.now.problem self.now.base (calls_of self.now.asked)) }
        ensures fits { IfOk result (λ edit. IfSome edit (EditFits self.now.problem)) }
    {
        self.lawful();
        let mut stack = Vec::new(*self.changes.allocator());
        let mut made = 0;
        let all = self.asked();
        for asked in all {
            if let Some(edit) = asked.done_edit() {
                let inverse = self.inverse(made, &edit);
                restack(&mut stack, &edit, inverse)?;
                made += 1;
            }
        }
        Ok(stack.pop())
    }
}
