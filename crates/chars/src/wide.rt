//! The table `Wide`: a terminal with wide and combining characters, by ranges of code points.
ghost use Rattle.std.specs.Prelude.{◌≡◌};
ghost use Rattle.chars.specs.Ranges.{in_some, wide_columns, wide_blank, no_column_ranges, two_column_ranges};
ghost use Rattle.chars.specs.WideTableLemmas.{at_most_two};
ghost use Rattle.std.proofs.Common.{rules};

use super::table::CharTable;

// What shows nothing. The two spaces at which no line may end, U+00A0 and U+2007, are not among them.
const BLANK: [(char, char); 5] = [
    ('\t', '\r'),
    (' ', ' '),
    ('\u{2000}', '\u{2006}'),
    ('\u{2008}', '\u{200A}'),
    ('\u{3000}', '\u{3000}'),
];

// Marks that stand over the character before them, and signs that only steer.
const NO_COLUMN: [(char, char); 3] = [
    ('\u{300}', '\u{36F}'),
    ('\u{200B}', '\u{200F}'),
    ('\u{FE00}', '\u{FE0F}'),
];

// The scripts of East Asia, full forms and pictures.
const TWO_COLUMNS: [(char, char); 8] = [
    ('\u{1100}', '\u{115F}'),
    ('\u{2E80}', '\u{303E}'),
    ('\u{3041}', '\u{4DBF}'),
    ('\u{4E00}', '\u{A4CF}'),
    ('\u{AC00}', '\u{D7A3}'),
    ('\u{F900}', '\u{FAFF}'),
    ('\u{FF00}', '\u{FF60}'),
    ('\u{1F300}', '\u{1F64F}'),
];

// Whether some range of the table holds the character.
fn holds(ranges: &[(char, char)], c: char) -> bool
    ensures { result ≡ in_some ranges.now c }
{
    ranges.iter().any(|(low, high)| *low <= c && c <= *high)
}

/// Characters of no, one or two columns.
#[derive(Clone, Copy)]
pub struct Wide;

impl CharTable for Wide {
    ghost columns = { λ _ c. wide_columns c };

    ghost blank = { λ _ c. wide_blank c };

    ghost at_most_two_wide = { λ t c. at_most_two (in_some no_column_ranges c) (in_some two_column_ranges c) };

    ghost space_is_one_wide = { Prim.search rules };

    ghost space_is_blank = { Prim.search rules };

    ghost tab_is_blank = { Prim.search rules };

    ghost newline_is_blank = { Prim.search rules };

    fn width(&self, c: char) -> u8 {
        if holds(&NO_COLUMN, c) {
            0
        } else if holds(&TWO_COLUMNS, c) {
            2
        } else {
            1
        }
    }

    fn is_blank(&self, c: char) -> bool {
        holds(&BLANK, c)
    }
}
