//! The bytes between texts of different looks.
ghost use Rattle.std.specs.Prelude.{◌≡◌, ◌++◌, OnErr};
ghost use Rattle.stack.specs.Held.{held};
ghost use Rattle.style.specs.Switches.{reset_bytes};
ghost use Rattle.paint.specs.Looks.{looks_of};
ghost use Rattle.paint.specs.Switching.{switches, restyled};
ghost use Rattle.paint.specs.Linking.{link_bytes, entered, relinked};
ghost use Rattle.paint.specs.Rows.{put, leaving, synced};

use crate::attrs::RunAttrs;
use crate::fault::RowFault;
use crate::link::LinkTarget;
use crate::row::RowBuffer;
use crate::styles::StyleList;
use style::{Style, reset, switch};

/// Adds to the row, up to 8,192 bytes, or changes nothing.
pub(crate) fn append(text: &[u8], out: &mut RowBuffer) -> Result<(), RowFault>
    ensures answer { leaving result out.new ≡ put text.now out.old }
    ensures kept { OnErr result (out.new ≡ out.old) }
{
    out.extend_from_slice(text)?;
    Ok(())
}

// Turns the styles on, one after the other.
fn write_styles(styles: &[Style], out: &mut RowBuffer) -> Result<(), RowFault>
    ensures { leaving result out.new ≡ put (switches styles.now) out.old }
{
    for style in styles {
        append(switch(*style), out)?;
    }
    Ok(())
}

// A reset, and the styles.
fn write_anew(styles: &[Style], out: &mut RowBuffer) -> Result<(), RowFault>
    ensures { leaving result out.new ≡ put (reset_bytes ++ switches styles.now) out.old }
{
    append(reset(), out)?;
    write_styles(styles, out)
}

// What leads from the styles in force to the desired ones.
fn write_diff(emitted: &[Style], desired: &[Style], out: &mut RowBuffer) -> Result<(), RowFault>
    ensures { leaving result out.new ≡ put (restyled emitted.now desired.now) out.old }
{
    match desired.strip_prefix(emitted) {
        Some(further) => write_styles(further, out),
        None => write_anew(desired, out),
    }
}

fn write_link(address: &[u8], out: &mut RowBuffer) -> Result<(), RowFault>
    ensures { leaving result out.new ≡ put (link_bytes address.now) out.old }
{
    append(b"\x1b]8;;", out)?;
    append(address, out)?;
    append(b"\x1b\\", out)
}

// What a link writes of its address: nothing where there is none.
fn enter_link(link: LinkTarget, address: &[u8], out: &mut RowBuffer) -> Result<(), RowFault>
    ensures { leaving result out.new ≡ put (entered link address.now) out.old }
{
    match link {
        LinkTarget::Linked(_) => write_link(address, out),
        LinkTarget::Unlinked => Ok(()),
    }
}

/// Writes what leads from the styles in force to the desired ones: the further ones, or a reset and all of them.
pub fn write_style_diff(
    emitted: &StyleList,
    desired: &StyleList,
    out: &mut RowBuffer,
) -> Result<(), RowFault>
    ensures { leaving result out.new ≡ put (restyled (held emitted.now) (held desired.now)) out.old }
{
    write_diff(emitted.as_slice(), desired.as_slice(), out)
}

/// Writes what leads from the link in force to the desired one, whose address is given.
pub fn sync_link(
    emitted: LinkTarget,
    desired: LinkTarget,
    address: &[u8],
    out: &mut RowBuffer,
) -> Result<(), RowFault>
    ensures { leaving result out.new ≡ put (relinked emitted desired address.now) out.old }
{
    if emitted.is_same(desired) {
        return Ok(());
    }
    // A link is left by the empty address.
    enter_link(emitted, b"", out)?;
    enter_link(desired, address, out)
}

impl RunAttrs {
    /// Writes what leads from these attributes to the desired ones: first the styles, then the link.
    pub fn sync(
        &self,
        desired: &RunAttrs,
        address: &[u8],
        out: &mut RowBuffer,
    ) -> Result<(), RowFault>
        ensures { leaving result out.new ≡ put (synced (looks_of self.now) (looks_of desired.now) address.now) out.old }
    {
        write_style_diff(&self.styles, &desired.styles, out)?;
        sync_link(self.link, desired.link, address, out)
    }
}
