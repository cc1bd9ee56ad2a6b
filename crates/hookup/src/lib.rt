// Document 01 as a whole: definitions, demands and worked examples, and the two types of the call that they speak of.
#![tactic(auto)]

ghost use Rattle.std.specs.Prelude.{◌≡◌};
ghost use Rattle.hookup.specs.Options as given;

use drawing::spacing::Spacing;

// What the caller may give beside the list.
#[derive(Clone, Copy, Debug, PartialEq, Eq)]
pub struct Options {
    pub discount: Option<u32>,
    pub spacing: Spacing,
}

impl Options {
    // Nothing: the sheet is the grid's, and ends with the lengths.
    pub fn plain() -> Options
        ensures { result ≡ given.plain }
    {
        Options {
            discount: None,
            spacing: Spacing::on_grid(),
        }
    }

    // A customer's discount, in hundredths of a percent: the sheet ends with what the cables cost.
    pub fn quoted(discount: u32) -> Options
        ensures { result ≡ given.quoted discount }
    {
        Options {
            discount: Some(discount),
            ..Options::plain()
        }
    }

    // What is given, with a spacing for print.
    pub fn spaced(self, spacing: Spacing) -> Options
        ensures { result ≡ given.spaced_with spacing self }
    {
        Options { spacing, ..self }
    }
}

// 'A successful call returns the words written and the crossings'; a refusal 'returns its number and one place, and writes no word'.
#[derive(Clone, Copy, Debug, PartialEq, Eq)]
pub struct Sheet {
    pub words: usize,
    pub crossings: usize,
}
