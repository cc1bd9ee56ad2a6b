// The calls for programs that are not written in Rattle. include/dovranis.h says in words what the contracts here say.
#![tactic(auto)]

use checks::Refusal;
use drafting::draw;
use drawing::spacing::Spacing;
use hookup::{Options, Sheet};
use words::limits;

pub mod canonical_form;
pub mod operations;
pub mod pointing;
pub mod sheet_check;
pub mod signal_levels;

ghost use Rattle.std.specs.Prelude.{◌≡◌};
ghost use Rattle.hookup.specs.Options.{plain, quoted, spaced_by};
ghost use Rattle.checks.specs.Checks.{number_of};
ghost use Rattle.exports.specs.Call.{most_words, most_quoted_words, lent, ToldSheet, Called};

// An output of so many words is long enough for every sheet, and with a discount one of so many more.
pub const MOST_WORDS: usize = limits::MOST_WORDS;

pub const MOST_QUOTED_WORDS: usize = limits::MOST_QUOTED_WORDS;

// The constants, for programs that do not read the header.
#[unsafe(no_mangle)]
pub extern "C" fn dovranis_most_words() -> usize
    ensures { result ≡ most_words }
{
    MOST_WORDS
}

#[unsafe(no_mangle)]
pub extern "C" fn dovranis_most_quoted_words() -> usize
    ensures { result ≡ most_quoted_words }
{
    MOST_QUOTED_WORDS
}

// A refusal: its place is stored, its number is the result.
fn refuse(refusal: Refusal, place: &mut usize) -> u32
    ensures { (result ≡ number_of refusal.fault) × (place.new ≡ refusal.place) }
{
    *place = refusal.place;
    u32::from(refusal.fault.number())
}

// An answer by a result and lent numbers: 0 for a sheet, with its words and crossings stored, and the check's number for a refusal, with
// its place stored.
fn tell(
    answer: Result<Sheet, Refusal>,
    words: &mut usize,
    crossings: &mut usize,
    place: &mut usize,
) -> u32
    ensures { ToldSheet answer
        (lent words.old crossings.old place.old)
        (lent words.new crossings.new place.new) result }
{
    match answer {
        Ok(sheet) => {
            *words = sheet.words;
            *crossings = sheet.crossings;
            0
        }
        Err(refusal) => refuse(refusal, place),
    }
}

// `drafting::draw` with nothing given. C has no optional parameters, so that there is a call for each of what may be given.
#[unsafe(no_mangle)]
pub extern "C" fn dovranis_draw(
    list: &[u32],
    sheet: &mut [u32],
    words: &mut usize,
    crossings: &mut usize,
    place: &mut usize,
) -> u32
    ensures { Called plain list.now sheet.old sheet.new
        (lent words.old crossings.old place.old)
        (lent words.new crossings.new place.new) result }
{
    tell(draw(list, sheet, Options::plain()), words, crossings, place)
}

// `drafting::draw` with a discount, in hundredths of a percent.
#[unsafe(no_mangle)]
pub extern "C" fn dovranis_draw_quoted(
    list: &[u32],
    sheet: &mut [u32],
    discount: u32,
    words: &mut usize,
    crossings: &mut usize,
    place: &mut usize,
) -> u32
    ensures { Called (quoted discount) list.now sheet.old sheet.new
        (lent words.old crossings.old place.old)
        (lent words.new crossings.new place.new) result }
{
    tell(
        draw(list, sheet, Options::quoted(discount)),
        words,
        crossings,
        place,
    )
}

// `drafting::draw` with a spacing for print.
#[unsafe(no_mangle)]
pub extern "C" fn dovranis_draw_spaced(
    list: &[u32],
    sheet: &mut [u32],
    column_pitch: u32,
    row_pitch: u32,
    margin: u32,
    words: &mut usize,
    crossings: &mut usize,
    place: &mut usize,
) -> u32
    ensures { Called (spaced_by column_pitch row_pitch margin plain) list.now sheet.old sheet.new
        (lent words.old crossings.old place.old)
        (lent words.new crossings.new place.new) result }
{
    let options = Options::plain().spaced(Spacing::of(column_pitch, row_pitch, margin));
    tell(draw(list, sheet, options), words, crossings, place)
}

// `drafting::draw` with a discount and a spacing.
#[unsafe(no_mangle)]
pub extern "C" fn dovranis_draw_quoted_spaced(
    list: &[u32],
    sheet: &mut [u32],
    discount: u32,
    column_pitch: u32,
    row_pitch: u32,
    margin: u32,
    words: &mut usize,
    crossings: &mut usize,
    place: &mut usize,
) -> u32
    ensures { Called (spaced_by column_pitch row_pitch margin (quoted discount))
        list.now sheet.old sheet.new
        (lent words.old crossings.old place.old)
        (lent words.new crossings.new place.new) result }
{
    let options = Options::quoted(discount).spaced(Spacing::of(column_pitch, row_pitch, margin));
    tell(draw(list, sheet, options), words, crossings, place)
}
