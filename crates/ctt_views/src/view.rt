//! Which grids a page has, and how it links to them.

ghost use Rattle.std.specs.Prelude.{◌≡◌, Some, nat_lt};
ghost use Rattle.ctt_views.specs.Grids.{GridFits};
ghost use Rattle.ctt_views.specs.Views.{cell_count, has_grid, has_kind, link, linked, only_kind, view_alone, view_with};

use crate::grid::{Grid, name_of};
use crate::options::{GridKind, MOST_CELLS};
use crate::phrases::Named;
use ctt_problem::Instance;
use std::fmt;

/// The kinds of grids that a page has, and whether it leaves out costs.
#[derive(Clone, Copy)]
pub(crate) struct View {
    pub(crate) curricula: bool,
    pub(crate) teachers: bool,
    pub(crate) rooms: bool,
    pub(crate) courses: bool,
    pub(crate) plain: bool,
}

/// Returns whether the grids of all kinds have too many cells for one page.
fn is_large(instance: &Instance) -> bool
    ensures { result ≡ nat_lt 80000 (cell_count instance.now) }
{
    instance.limits_hold();
    let grids = u64::from(instance.curricula())
        + u64::from(instance.teachers())
        + u64::from(instance.rooms())
        + u64::from(instance.courses());
    grids * u64::from(instance.slots()) > MOST_CELLS
}

/// Returns the kind of which a page has the only grids, or `None` if it has those of all kinds.
pub(crate) fn only_kind(instance: &Instance, asked: Option<GridKind>) -> Option<GridKind>
    ensures { result ≡ only_kind instance.now asked }
{
    match asked {
        Some(kind) => Some(kind),
        None => {
            if is_large(instance) {
                Some(GridKind::Rooms)
            } else {
                None
            }
        }
    }
}

impl View {
    /// A page on which one grid stands alone.
    pub(crate) fn alone(plain: bool) -> View
        ensures { result ≡ view_alone plain }
    {
        View {
            curricula: false,
            teachers: false,
            rooms: false,
            courses: false,
            plain,
        }
    }

    /// A page with the grids of a kind.
    fn of_kind(kind: GridKind, plain: bool) -> View
        ensures { result ≡ view_with (Some kind) plain }
    {
        match kind {
            GridKind::Curricula => View {
                curricula: true,
                teachers: false,
                rooms: false,
                courses: false,
                plain,
            },
            GridKind::Teachers => View {
                curricula: false,
                teachers: true,
                rooms: false,
                courses: false,
                plain,
            },
            GridKind::Rooms => View {
                curricula: false,
                teachers: false,
                rooms: true,
                courses: false,
                plain,
            },
            GridKind::Courses => View {
                curricula: false,
                teachers: false,
                rooms: false,
                courses: true,
                plain,
            },
        }
    }

    /// A page with the grids of one kind only, or of all kinds.
    pub(crate) fn new(only: Option<GridKind>, plain: bool) -> View
        ensures { result ≡ view_with only plain }
    {
        match only {
            Some(kind) => View::of_kind(kind, plain),
            None => View {
                curricula: true,
                teachers: true,
                rooms: true,
                courses: true,
                plain,
            },
        }
    }
}

/// Returns whether a page has the grids of a kind.
pub(crate) fn has_kind(view: &View, kind: &GridKind) -> bool
    ensures { result ≡ has_kind view.now kind.now }
{
    match kind {
        GridKind::Curricula => view.curricula,
        GridKind::Teachers => view.teachers,
        GridKind::Rooms => view.rooms,
        GridKind::Courses => view.courses,
    }
}

/// Returns whether a page has a grid among those of its kind.
pub(crate) fn has_grid(view: &View, grid: &Grid) -> bool
    ensures { result ≡ has_grid view.now grid.now }
{
    match grid {
        Grid::Curriculum(_) => view.curricula,
        Grid::Teacher(_) => view.teachers,
        Grid::Room(_) => view.rooms,
        Grid::Course(_) => view.courses,
    }
}

/// A name as HTML text: a link to the grid of that name, if the page has it.
#[derive(Clone, Copy)]
pub(crate) struct Linked<'i> {
    pub(crate) shown: bool,
    pub(crate) grid: Grid,
    pub(crate) name: &'i str,
}

impl fmt::Display for Linked<'_> {
    ghost output = { λ l. Some (linked l.shown l.grid l.name.now) };

    #[tactic(auto, unfolding(crate::specs::Views::linked))]
    fn fmt<W: fmt::Write>(&self, f: &mut fmt::Formatter<W>) -> fmt::Result {
        let grid = self.grid;
        let name = Named(self.name);
        if self.shown {
            write!(f, "<a href='#{grid}'>{name}</a>")
        } else {
            name.fmt(f)
        }
    }
}

/// Returns the name of what a grid shows, as a page links to it.
pub(crate) fn link<'i>(instance: &'i Instance, view: &View, grid: Grid) -> Linked<'i>
    requires { GridFits instance.now grid }
    ensures { linked result.shown result.grid result.name.now ≡ link instance.now view.now grid }
{
    Linked {
        shown: has_grid(view, &grid),
        grid,
        name: name_of(instance, &grid),
    }
}
