//! Phrases: names, amounts, days and times.

ghost use Rattle.std.specs.Prelude.{◌≡◌, ◌==◌, Some, option_map, slice_get};
ghost use Rattle.std.specs.List.{slice_split};
ghost use Rattle.ctt_views.specs.Phrases.{amount, day_as, day_name, day_text, ending, name_as, named, price, when};

use crate::escape::Escaped;
use std::fmt;

/// A name as HTML text, in an element of its own, so that it does not affect the direction of the
/// text beside it.
#[derive(Clone, Copy)]
pub(crate) struct Named<'a>(pub(crate) &'a str);

impl fmt::Display for Named<'_> {
    ghost output = { λ name. Some (named name.0.now) };

    #[tactic(auto, unfolding(crate::specs::Phrases::named))]
    fn fmt<W: fmt::Write>(&self, f: &mut fmt::Formatter<W>) -> fmt::Result {
        let name = Escaped(self.0);
        write!(f, "<bdi>{name}</bdi>")
    }
}

/// Of which kind a text is.
#[derive(Clone, Copy, PartialEq, Eq)]
pub(crate) enum Markup {
    /// A part of a page.
    Html,
    /// Lines to be read as they are.
    Plain,
}

/// A name in a text of either kind.
#[derive(Clone, Copy)]
pub(crate) struct Name<'a> {
    pub(crate) markup: Markup,
    pub(crate) name: &'a str,
}

impl fmt::Display for Name<'_> {
    ghost output = { λ n. Some (name_as n.markup n.name.now) };

    #[tactic(auto, unfolding(crate::specs::Phrases::name_as))]
    fn fmt<W: fmt::Write>(&self, f: &mut fmt::Formatter<W>) -> fmt::Result {
        match self.markup {
            Markup::Html => Named(self.name).fmt(f),
            Markup::Plain => f.write_str(self.name),
        }
    }
}

/// Returns the ending of a noun after a number.
fn ending(count: u64) -> &'static str
    ensures { result.now ≡ ending count }
{
    if count == 1 { "" } else { "s" }
}

/// A number of things, named by a noun in the singular.
#[derive(Clone, Copy)]
pub(crate) struct Amount {
    pub(crate) count: u64,
    pub(crate) noun: &'static str,
}

impl fmt::Display for Amount {
    ghost output = { λ a. Some (amount a.count a.noun.now) };

    #[tactic(auto, unfolding(crate::specs::Phrases::amount))]
    fn fmt<W: fmt::Write>(&self, f: &mut fmt::Formatter<W>) -> fmt::Result {
        let count = self.count;
        let noun = self.noun;
        let ending = ending(count);
        write!(f, "{count} {noun}{ending}")
    }
}

/// The points of a finding. Displayed only if it has any.
#[derive(Clone, Copy)]
pub(crate) struct Price(pub(crate) u64);

impl fmt::Display for Price {
    ghost output = { λ p. Some (price p.0) };

    #[tactic(auto, unfolding(crate::specs::Phrases::price))]
    fn fmt<W: fmt::Write>(&self, f: &mut fmt::Formatter<W>) -> fmt::Result {
        if self.0 == 0 {
            Ok(())
        } else {
            let points = Amount {
                count: self.0,
                noun: "point",
            };
            write!(f, "<i>{points}</i> ")
        }
    }
}

/// Returns the part of a text after as many commas.
fn part(text: &str, commas: usize) -> Option<&str>
    ensures { option_map (λ x. x.now) result
        ≡ slice_get (slice_split (λ b. b == 44) text.now) commas }
{
    text.split(',').nth(commas)
}

/// Returns the name of a day, if commas separate the names, or an empty text if there are too few.
fn day_name(names: &str, day: u16) -> &str
    ensures { result.now ≡ day_name names.now day }
{
    match part(names, usize::from(day)) {
        Some(name) => name,
        None => "",
    }
}

/// A day in a text of either kind: its name, or else its number. The names are in one text, with
/// commas between them.
#[derive(Clone, Copy)]
struct DayAs<'n> {
    markup: Markup,
    names: &'n str,
    day: u16,
}

impl fmt::Display for DayAs<'_> {
    ghost output = { λ d. Some (day_as d.markup d.names.now d.day) };

    #[tactic(auto, unfolding(crate::specs::Phrases::day_as))]
    fn fmt<W: fmt::Write>(&self, f: &mut fmt::Formatter<W>) -> fmt::Result {
        let name = day_name(self.names, self.day);
        if name.is_empty() {
            let number = u32::from(self.day) + 1;
            write!(f, "day {number}")
        } else {
            let markup = self.markup;
            Name { markup, name }.fmt(f)
        }
    }
}

/// A day as HTML.
#[derive(Clone, Copy)]
pub(crate) struct Day<'n> {
    pub(crate) names: &'n str,
    pub(crate) day: u16,
}

impl fmt::Display for Day<'_> {
    ghost output = { λ d. Some (day_text d.names.now d.day) };

    #[tactic(auto, unfolding(crate::specs::Phrases::day_text))]
    fn fmt<W: fmt::Write>(&self, f: &mut fmt::Formatter<W>) -> fmt::Result {
        let day = DayAs {
            markup: Markup::Html,
            names: self.names,
            day: self.day,
        };
        day.fmt(f)
    }
}

/// A day and a period in a text of either kind.
#[derive(Clone, Copy)]
pub(crate) struct When<'n> {
    pub(crate) markup: Markup,
    pub(crate) names: &'n str,
    pub(crate) day: u16,
    pub(crate) period: u16,
}

impl fmt::Display for When<'_> {
    ghost output = { λ w. Some (when w.markup w.names.now w.day w.period) };

    #[tactic(auto, unfolding(crate::specs::Phrases::when))]
    fn fmt<W: fmt::Write>(&self, f: &mut fmt::Formatter<W>) -> fmt::Result {
        let day = DayAs {
            markup: self.markup,
            names: self.names,
            day: self.day,
        };
        let number = u32::from(self.period) + 1;
        write!(f, "{day}, period {number}")
    }
}
