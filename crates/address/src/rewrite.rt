//! From an address as written to the address that its link gets.
ghost use Rattle.std.specs.Prelude.{◌≡◌, [], length, IfErr, nat_le};
ghost use Rattle.std.specs.Option.{option_map};
ghost use Rattle.address.specs.Percent.{percent};
ghost use Rattle.address.specs.declared.fault.ResolveFault.TheVariants.{Site as escapes};
ghost use Rattle.address.specs.Buffer.{bytes_of, held, prepended};
ghost use Rattle.address.specs.Laws.{SchemeStays, BeginsWithBase, SameAgain, DetourVanishes, TailFollows};
ghost use Rattle.address.specs.Laying.{laid, ended_as};
ghost use Rattle.address.specs.Reference.{path_of, query_of, anchor_of};
ghost use Rattle.address.specs.Resolved.{Outcome, before_authority, or_nothing, segments_of, resolved, limited, rewritten};
ghost use Rattle.address.specs.Answers.{answer_of, held_of, bounded};
ghost use Rattle.address.specs.Segments.{parts_of, last_of, end_of};

use crate::buffer::{ADDRESS_LIMIT, Address, Draft};
use crate::fault::ResolveFault;
use crate::path::{climb, directory_step, path_step, split_last, take_last};
use crate::percent::percent_length;
use crate::reference::{Form, cut, form_of};

/// The most bytes that a base may have.
const BASE_LIMIT: usize = 128;

// What stands before the first `//` of a base, and nothing if there is none.
fn before_authority(base: &str) -> &str
    ensures { result.now ≡ or_nothing (before_authority base.now) }
{
    base.split_once("//").map_or("", |(front, _)| front)
}

// Lays an address from its anchor to its base, or refuses a path that leaves the site.
fn lay(url: &str, base: &str, site_dir: &str, draft: &mut Draft) -> Result<(), ResolveFault>
    ensures lays { ended_as result (held draft.new) ≡ option_map (prepended base.now) (laid 0 (segments_of site_dir.now (path_of url.now)) (prepended (end_of (last_of (parts_of (path_of url.now)))) (prepended (query_of url.now) (prepended (anchor_of url.now) (held draft.old))))) }
    ensures refuses { IfErr result (λ fault. fault ≡ escapes) }
{
    let (before, anchor) = cut(url, '#');
    let (path, query) = cut(before, '?');
    draft.prepend(anchor);
    draft.prepend(query);
    let (leading, last) = split_last(path);
    let ups = take_last(last, draft);
    let ups = climb(path_step, leading, ups, draft);
    let ups = climb(directory_step, site_dir, ups, draft);
    if ups > 0 {
        return Err(ResolveFault::Site);
    }
    draft.prepend(base);
    Ok(())
}

// The address that a link gets, or none for a mere anchor.
fn place(url: &str, base: &str, site_dir: &str) -> Result<Option<Draft>, ResolveFault>
    ensures { held_of result ≡ bounded (resolved url.now base.now site_dir.now) }
{
    let mut draft = Draft::new();
    match form_of(url) {
        Form::Scheme => draft.prepend(url),
        Form::Anchor => return Ok(None),
        Form::Network => {
            draft.prepend(url);
            draft.prepend(before_authority(base));
        }
        Form::Absolute => lay(url, base, "", &mut draft)?,
        Form::Relative => lay(url, base, site_dir, &mut draft)?,
    }
    Ok(Some(draft))
}

// Whether an address is within its limit in percent form.
fn is_short(address: &Address) -> bool
    ensures { result ≡ nat_le (length (percent (bytes_of address.now))) 512 }
{
    percent_length(address.as_bytes(), ADDRESS_LIMIT).is_some()
}

// Refuses a base and an address that are too long.
fn limit(
    placed: Result<Option<Draft>, ResolveFault>,
    base: &str,
) -> Result<Option<Address>, ResolveFault>
    ensures { (o : Outcome) → held_of placed ≡ bounded o → answer_of result ≡ limited base.now o }
{
    let answer = placed?;
    if base.len() > BASE_LIMIT {
        return Err(ResolveFault::Address);
    }
    let Some(draft) = answer else {
        return Ok(None);
    };
    match draft.0.filter(is_short) {
        Some(address) => Ok(Some(address)),
        None => Err(ResolveFault::Address),
    }
}

/// Rewrites the address of a link, by the Rust's three parameters: as given where it has a scheme, else below the base and the site directory, or none for a mere anchor.
pub fn rewrite_url(url: &str, base: &str, site_dir: &str) -> Result<Option<Address>, ResolveFault>
    ensures answer { answer_of result ≡ rewritten url.now base.now site_dir.now }
    ensures scheme_stays { SchemeStays url.now base.now (answer_of result) }
    ensures begins_with_base { BeginsWithBase url.now base.now (answer_of result) }
    ensures same_again { SameAgain base.now (answer_of result) }
    ensures detour_vanishes { DetourVanishes url.now base.now site_dir.now (answer_of result) }
    ensures tail_follows { TailFollows url.now base.now site_dir.now (answer_of result) }
{
    limit(place(url, base, site_dir), base)
}
