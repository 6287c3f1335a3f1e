//! The items of the lists in replies.

use crate::call_words::{course, day, period, push_edit, room};
use crate::reply_words::push_fault;
use ctt_edits::{Offer, PricedEdit, Shortfall};
use ctt_line::{Word, push_words};
use ctt_text::{Instance, Placed};
use std::alloc::AllocError;

/// An item of a list in a reply: a lecture, a shortfall, a priced edit, or what a slot offers.
pub(crate) trait Item {
    ghost use Rattle.std.specs.Prelude.{◌≡◌, ◌++◌, List, OnOk, string_bytes, ℕ};
    ghost use Rattle.ctt_problem.specs.Problem.{Problem};
    ghost use Rattle.ctt_line.specs.Lines.{words_part};

    /// The item fits the instance: its numbers are in range.
    ghost fits: { Problem → Self → Type 0 };

    /// The words of the item on a line.
    ghost words: { Problem → Self → List (List ℕ) };

    /// Appends the words of the item, with a blank before each.
    fn push(&self, text: &mut String, instance: &Instance) -> Result<(), AllocError>
        requires { fits instance.now self.now }
        ensures { OnOk result (string_bytes text.new
            ≡ string_bytes text.old ++ words_part (words instance.now self.now)) };
}

impl Item for Placed {
    ghost use Rattle.ctt_problem.specs.Timetable.{Fits};
    ghost use Rattle.ctt_script.specs.WrittenWords.{lecture_words};

    ghost fits = { Fits };

    ghost words = { lecture_words };

    fn push(&self, text: &mut String, instance: &Instance) -> Result<(), AllocError> {
        let (day, period) = (day(instance, self.slot), period(instance, self.slot));
        push_words(
            text,
            &[
                course(instance, self.course),
                room(instance, self.room),
                day,
                period,
            ],
        )
    }
}

impl Item for Shortfall {
    ghost use Rattle.ctt_edits.specs.Fitting.{ShortfallFits};
    ghost use Rattle.ctt_script.specs.WrittenWords.{shortfall_words};

    ghost fits = { ShortfallFits };

    ghost words = { shortfall_words };

    fn push(&self, text: &mut String, instance: &Instance) -> Result<(), AllocError> {
        let missing = Word::number(u64::from(self.missing));
        push_words(text, &[course(instance, self.course), missing])
    }
}

impl Item for PricedEdit {
    ghost use Rattle.ctt_edits.specs.Fitting.{PricedFits};
    ghost use Rattle.ctt_script.specs.WrittenWords.{priced_words};

    ghost fits = { PricedFits };

    ghost words = { priced_words };

    #[tactic(auto, using(crate::proofs::WrittenText::after_blank))]
    fn push(&self, text: &mut String, instance: &Instance) -> Result<(), AllocError> {
        push_words(text, &[Word::amount(self.price)])?;
        text.push(' ')?;
        push_edit(text, instance, &self.edit)
    }
}

impl Item for Offer {
    ghost use Rattle.ctt_edits.specs.Fitting.{OfferFits};
    ghost use Rattle.ctt_script.specs.WrittenWords.{offer_words};

    ghost fits = { OfferFits };

    ghost words = { offer_words };

    #[tactic(auto, using(crate::proofs::WrittenText::after_blank))]
    fn push(&self, text: &mut String, instance: &Instance) -> Result<(), AllocError> {
        match self {
            Offer::Priced(priced) => priced.push(text, instance),
            Offer::Refused(fault) => {
                text.push_str(" - ")?;
                push_fault(text, instance, fault)
            }
            Offer::Nothing => text.push_str(" - none"),
        }
    }
}
