//! Refreshes.

ghost use Rattle.std.specs.Prelude.{◌≡◌, None, IfOk, IfErr, OnErr};
ghost use Rattle.ctt_draft.specs.Drafts.{calls_of, stale};
ghost use Rattle.ctt_draft.specs.DraftValues.{refreshed};
ghost use Rattle.ctt_desk.specs.Planners.{IsRefreshed};
ghost use Rattle.ctt_desk.specs.Refusals.{IsNotRefreshed};

use crate::drafting::{Drafting, end_draft};
use crate::naming::Naming;
use crate::planner::Planner;
use crate::refusal::RefreshRefusal;
use crate::shown::{Shown, enter};
use ctt_board::{Sheet, Timetable};
use ctt_draft::Draft;
use ctt_edits::Row;
use ctt_problem::NoMemory;

/// Makes a published timetable the base of a draft, unless a row that the draft read differs there.
fn refresh_on<'i, S: Sheet<'i>, J: Naming>(
    draft: &mut Draft<'i, S>,
    shown: &Shown<S, J>,
) -> Result<Option<Row>, NoMemory>
    requires { draft.old.problem ≡ J.problem }
    ensures ok { IfOk result (λ found.
        (found ≡ stale J.problem draft.old.base shown.now.list (calls_of draft.old.asked))
        × (draft.new ≡ refreshed draft.old shown.now.list found)) }
    ensures err { OnErr result (draft.new ≡ draft.old) }
    ensures fresh { OnErr result
        (stale J.problem draft.old.base shown.now.list (calls_of draft.old.asked) ≡ None) }
{
    draft.refresh(&shown.sheet)
}

impl<'i, S: Sheet<'i>, J: Naming> Drafting<'i, S, J> {
    /// Makes the latest published timetable the base of the draft, if no row that the draft read
    /// has changed since it was opened or last refreshed. The planner has then seen that
    /// timetable's history.
    #[tactic(auto, using(crate::proofs::PrefixLemmas::prefix_same))]
    pub fn refresh(self) -> Result<Self, RefreshRefusal<'i, S, J>>
        ensures ok { IfOk result (IsRefreshed J.problem J.opening self.entry) }
        ensures err { IfErr result (IsNotRefreshed J.problem J.opening self.entry) }
    {
        let Drafting {
            mut planner,
            mut draft,
            since,
        } = self;
        match enter(planner.place.take().unwrap(), &planner.front) {
            Err(place) => {
                planner.place = Some(place);
                Err(RefreshRefusal::NoPlace(Drafting {
                    planner,
                    draft,
                    since,
                }))
            }
            Ok((visit, seen)) => {
                let found = refresh_on(&mut draft, visit.get());
                planner.place = Some(visit.leave());
                match found {
                    Ok(None) => {
                        let since = seen.again();
                        planner.front = seen;
                        Ok(Drafting {
                            planner,
                            draft,
                            since,
                        })
                    }
                    Ok(Some(row)) => {
                        let asked = end_draft(draft);
                        planner.front = seen;
                        Err(RefreshRefusal::Stale(planner, row, asked))
                    }
                    Err(_) => Err(RefreshRefusal::NoMemory(Drafting {
                        planner,
                        draft,
                        since,
                    })),
                }
            }
        }
    }
}
