//! Closing a row: it loses the spaces at its end, and its link and styles end.
ghost use Rattle.std.specs.Prelude.{◌≡◌, ◌≤◌, [], ◌++◌, length, if◌then◌else◌};
ghost use Rattle.style.specs.Switches.{reset_bytes};
ghost use Rattle.paint.specs.Linking.{link_bytes};
ghost use Rattle.paint.specs.Rows.{open_of, finished, margin_left};

use crate::closed_row::ClosedRow;
use crate::open_line::OpenLine;
use crate::trim::trimmed;
use style::reset;

// The bytes where they are wanted, else none.
fn only_if(wanted: bool, bytes: &[u8]) -> &[u8]
    ensures value { result.now ≡ (if wanted then bytes.now else []) }
    ensures within { length result.now ≤ length bytes.now }
{
    if wanted { bytes } else { &[] }
}

// Takes a row over that has these bytes, and closes its link and its styles.
fn close(row: &[u8], linked: bool, styled: bool, out: &mut ClosedRow)
    requires { length row.now ≤ 8192 }
    ensures { out.new ≡ row.now ++ ((if linked then link_bytes [] else []) ++ (if styled then reset_bytes else [])) }
{
    out.clear();
    let _ = out.extend_from_slice(row);
    let _ = out.extend_from_slice(only_if(linked, b"\x1b]8;;\x1b\\"));
    let _ = out.extend_from_slice(only_if(styled, reset()));
}

impl OpenLine {
    /// Writes the row out as it goes on a board, and answers how many of its bytes are margin.
    pub fn finish(&self, out: &mut ClosedRow) -> usize
        ensures margin { result ≡ margin_left (open_of self.now) }
        ensures row { out.new ≡ finished (open_of self.now) }
    {
        let bytes = self.row.as_slice();
        let kept = trimmed(bytes);
        let linked = self.emitted.link.is_linked();
        let styled = !self.emitted.styles.is_empty();
        close(&bytes[0..kept], linked, styled, out);
        self.margin.min(kept)
    }
}
