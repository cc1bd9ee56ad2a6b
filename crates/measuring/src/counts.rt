// The words of a sheet, counted.
ghost use Rattle.std.specs.Prelude.{◌≡◌, length};
ghost use Rattle.drawing.specs.declared.spacing.Spacing as given;
ghost use Rattle.drawing.specs.Sheet.{sheet_words, quoted_words};
ghost use Rattle.placement.specs.Arrays.{layout_in};

use placement::Layout;

// '3m - n + 3 + d + e words', and m + 1 lengths (2026-01), in every spacing.
pub fn count_words(layout: &Layout) -> usize
    ensures { (s : given.Spacing) → result ≡ length (sheet_words s (layout_in layout.now)) }
{
    let n = layout.graph.parts;
    let m = layout.graph.cables;
    4 * m + 4 + layout.bottom_rows as usize + layout.top_rows as usize - n
}

// The words of a sheet in every spacing, and 'm + 1 words' more where a discount is given.
pub fn count_quoted(layout: &Layout, discount: Option<u32>) -> usize
    ensures { (s : given.Spacing) → result ≡ length (quoted_words s discount (layout_in layout.now)) }
{
    let words = count_words(layout);
    match discount {
        None => words,
        Some(_) => words + layout.graph.cables + 1,
    }
}
