//! The table `Panel`: a panel of fixed cells, by fixed rules.
ghost use Rattle.chars.specs.Ranges.{panel_blank};
ghost use Rattle.std.proofs.Common.{rules};

use super::table::CharTable;

/// Every character takes one cell, and only the blanks of ASCII are blank.
#[derive(Clone, Copy)]
pub struct Panel;

impl CharTable for Panel {
    ghost columns = { λ _ _. 1 };

    ghost blank = { λ _ c. panel_blank c };

    ghost at_most_two_wide = { Prim.search rules };

    ghost space_is_one_wide = { Prim.search rules };

    ghost space_is_blank = { Prim.search rules };

    ghost tab_is_blank = { Prim.search rules };

    ghost newline_is_blank = { Prim.search rules };

    fn width(&self, _c: char) -> u8 {
        1
    }

    fn is_blank(&self, c: char) -> bool {
        matches!(c, '\t'..='\r' | ' ')
    }
}
