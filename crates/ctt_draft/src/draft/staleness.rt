//! Checking whether a draft is stale on another timetable, and bringing it up to date.

ghost use Rattle.std.specs.Prelude.{◌≡◌, IfOk, OnErr, None, Ok};
ghost use Rattle.ctt_draft.specs.Drafts.{calls_of, stale};
ghost use Rattle.ctt_draft.specs.DraftValues.{refreshed, Settles};

use crate::comparing::Comparison;
use crate::draft::Draft;
use crate::draft_laws;
use ctt_board::Sheet;
use ctt_edits::Row;
use ctt_problem::NoMemory;

impl<'i, S: Sheet<'i>> Draft<'i, S> {
    /// Returns the first row, courses before slots, that the calls read and that differs between
    /// the snapshot and a sheet of the same instance. If there is none, the draft's changes fit
    /// that sheet, and its calls get the same replies there. Allocates nothing, so it never fails.
    pub fn stale(&self, sheet: &S) -> Result<Option<Row>, NoMemory>
        requires same { S.problem sheet.now ≡ self.now.problem }
        ensures row { result ≡ Ok (stale self.now.problem self.now.base (S.list sheet.now)
            (calls_of self.now.asked)) }
        ensures fresh { result ≡ Ok None → Settles self.now (S.list sheet.now) }
    {
        draft_laws::draft_frame();
        draft_laws::settling_fits();
        sheet.lawful();
        let comparison = Comparison::new(self.instance, &self.present, &self.undo, sheet);
        if let Some(course) = comparison.first_course(&self.rows) {
            return Ok(Some(Row::Course(course)));
        }
        if let Some(slot) = comparison.first_slot(&self.rows) {
            return Ok(Some(Row::Slot(slot)));
        }
        Ok(None)
    }

    /// Brings the draft up to date: if none of the rows that it read differs on a sheet, that
    /// sheet's timetable becomes its snapshot, and its calls are unchanged. Otherwise returns the
    /// first row that differs, and the draft is unchanged. The draft is also unchanged if memory
    /// runs out, which can only happen if it is not stale.
    pub fn refresh(&mut self, sheet: &S) -> Result<Option<Row>, NoMemory>
        requires { S.problem sheet.now ≡ self.old.problem }
        ensures ok { IfOk result (λ found.
            (found ≡ stale self.old.problem self.old.base (S.list sheet.now)
            (calls_of self.old.asked)) × (self.new ≡ refreshed self.old (S.list sheet.now) found)) }
        ensures err { OnErr result (self.new ≡ self.old) }
        ensures fresh { OnErr result
            (stale self.old.problem self.old.base (S.list sheet.now) (calls_of self.old.asked)
            ≡ None) }
    {
        sheet.lawful();
        if let Some(row) = self.stale(sheet)? {
            return Ok(Some(row));
        }
        let mut present = sheet.copy()?;
        present.apply_all(&self.changes);
        self.present = present;
        Ok(None)
    }
}
