//! The forms of reports and comparisons.

ghost use Rattle.std.specs.Prelude.{◌≡◌};
ghost use Rattle.ctt_commands.specs.Forms.{table_form};

/// The form of a report or of a comparison.
#[derive(Clone, Copy, PartialEq, Eq)]
pub enum TableForm {
    /// Lines of text; in a comparison their columns are aligned.
    Aligned,
    /// Comma-separated values.
    Csv,
    /// A JSON object; of a comparison an array of objects.
    Json,
}

/// Returns the form of a report or of a comparison, by whether JSON and CSV are asked for. JSON comes first.
pub fn table_form(json: bool, csv: bool) -> TableForm
    ensures { result ≡ table_form json csv }
{
    if json {
        TableForm::Json
    } else if csv {
        TableForm::Csv
    } else {
        TableForm::Aligned
    }
}
