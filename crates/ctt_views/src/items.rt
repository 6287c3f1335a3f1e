//! Findings as items of lists, each with a link to its grid or cell.

ghost use Rattle.std.specs.Prelude.{◌≡◌, ◌<◌, ◌++◌, IfSome, OnOk, Some, string_bytes};
ghost use Rattle.ctt_problem.specs.Problem.{slot_count};
ghost use Rattle.ctt_findings.specs.Fitting.{FindingFits};
ghost use Rattle.ctt_views.specs.Items.{finding_item, href, item_start, link_start, numbers_title, slot_title};

use crate::finding_places::{grid_at, slot_at};
use crate::grid::Place;
use crate::phrases::Price;
use crate::ranking::points;
use crate::sentences::push_sentence;
use crate::view::{View, has_grid};
use ctt_findings::Finding;
use ctt_problem::{Instance, SlotNo};
use std::alloc::AllocError;
use std::fmt;
use std::fmt::Write;

/// Where a link leads. Displayed only if the page has the grid.
#[derive(Clone, Copy)]
struct Href {
    shown: bool,
    place: Place,
}

impl fmt::Display for Href {
    ghost output = { λ h. Some (href h.shown h.place.grid h.place.slot) };

    #[tactic(auto, unfolding(crate::specs::Items::href))]
    fn fmt<W: fmt::Write>(&self, f: &mut fmt::Formatter<W>) -> fmt::Result {
        if self.shown {
            let place = self.place;
            write!(f, " href='#{place}'")
        } else {
            Ok(())
        }
    }
}

/// Adds the points of an item, and where its link leads.
#[tactic(auto, unfolding(crate::specs::Items::link_start))]
fn push_link_start(page: &mut String, href: &Href, points: u64) -> Result<(), AllocError>
    ensures { OnOk result (string_bytes page.new ≡ string_bytes page.old
        ++ link_start href.now.shown href.now.place.grid href.now.place.slot points) }
{
    let price = Price(points);
    let href = *href;
    write!(page, "<li>{price}<a{href}")
}

/// Adds the desk's numbers of a day and a period as a title.
#[tactic(auto, unfolding(crate::specs::Items::numbers_title))]
fn push_numbers(page: &mut String, day: u16, period: u16) -> Result<(), AllocError>
    ensures { OnOk result (string_bytes page.new
        ≡ string_bytes page.old ++ numbers_title day period) }
{
    write!(page, " title='day {day}, period {period}'")
}

/// Adds the desk's numbers of a slot as a title, if there is one.
fn push_slot_title(
    page: &mut String,
    instance: &Instance,
    slot: &Option<SlotNo>,
) -> Result<(), AllocError>
    requires { IfSome slot.now (λ s. s < slot_count instance.now) }
    ensures { OnOk result (string_bytes page.new
        ≡ string_bytes page.old ++ slot_title instance.now slot.now) }
{
    match slot {
        Some(slot) => push_numbers(page, instance.day_of(*slot), instance.period_of(*slot)),
        None => Ok(()),
    }
}

/// Begins an item: its points, and the link to a place, if the page has its grid.
#[tactic(auto, unfolding(crate::specs::Items::item_start))]
fn push_item_start(
    page: &mut String,
    instance: &Instance,
    view: &View,
    place: &Place,
    points: u64,
) -> Result<(), AllocError>
    requires { IfSome place.now.slot (λ s. s < slot_count instance.now) }
    ensures { OnOk result (string_bytes page.new ≡ string_bytes page.old
        ++ item_start instance.now view.now place.now.grid place.now.slot points) }
{
    let href = Href {
        shown: has_grid(view, &place.grid),
        place: *place,
    };
    push_link_start(page, &href, points)?;
    push_slot_title(page, instance, &place.slot)?;
    page.push_str(">")
}

/// Adds a finding: its points, and a sentence as a link to the grid or cell that shows it.
#[tactic(auto, unfolding(crate::specs::Items::finding_item))]
pub(crate) fn push_finding(
    page: &mut String,
    instance: &Instance,
    view: &View,
    days: &str,
    finding: &Finding,
) -> Result<(), AllocError>
    requires { FindingFits instance.now finding.now }
    ensures { OnOk result (string_bytes page.new
        ≡ string_bytes page.old ++ finding_item instance.now view.now days.now finding.now) }
{
    let place = Place {
        grid: grid_at(finding),
        slot: slot_at(instance, finding),
    };
    push_item_start(page, instance, view, &place, points(finding))?;
    push_sentence(page, instance, days, finding)?;
    page.push_str("</a></li>\n")
}
