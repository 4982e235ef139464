//! Laying a path into an address, its last part first: what goes up is counted, and takes away segments that come later.
ghost use Rattle.std.specs.Prelude.{◌≡◌, ◌+◌, ◌^◌, ◌<◌, ◌≤◌, length};
ghost use Rattle.address.specs.Buffer.{held, prepended};
ghost use Rattle.address.specs.Segments.{Stack, parts_of, step_of, entered, walked, leading_of, last_of, last_entered, end_of};
ghost use Rattle.address.specs.Laying.{laid};
ghost use Rattle.address.specs.Sources.{Source, Path as from_path, Directory as from_directory};
ghost use Rattle.address.specs.declared.path.Step.TheVariants.{Up as goes_up};

use crate::buffer::Draft;

/// What a part does.
#[derive(Clone, Copy)]
pub(crate) enum Step {
    /// It vanishes.
    Stay,
    /// It takes a segment away.
    Up,
    /// It is a segment.
    Down,
}

/// What a part of a path does.
pub(crate) fn path_step(part: &str) -> Step
    ensures { result ≡ step_of from_path part.now }
{
    match part {
        "" | "." => Step::Stay,
        ".." => Step::Up,
        _ => Step::Down,
    }
}

/// What a part of the site directory does.
pub(crate) fn directory_step(part: &str) -> Step
    ensures { result ≡ step_of from_directory part.now }
{
    match part {
        "" => Step::Stay,
        _ => Step::Down,
    }
}

// Takes one part, once those behind it are done: a segment is written with a slash before it, or is one of the `ups` that
// are still to be taken away. Answers how many of these are left.
fn take_part(taken: Step, part: &str, ups: usize, draft: &mut Draft) -> usize
    requires { taken ≡ goes_up → ups + 1 < 2 ^ 64 }
    ensures lays { (stack : Stack) → laid result stack (held draft.new) ≡ laid ups (entered stack taken part.now) (held draft.old) }
    ensures bound { result ≤ ups + 1 }
{
    match taken {
        Step::Stay => ups,
        Step::Up => ups + 1,
        Step::Down => {
            if ups > 0 {
                return ups - 1;
            }
            draft.prepend(part);
            draft.prepend("/");
            0
        }
    }
}

/// Takes the parts of a text, the last first, each by what `step` says of it, and answers how many segments are to be taken away before it.
pub(crate) fn climb<F: Fn(&str) -> Step>(
    step: F,
    text: &str,
    mut ups: usize,
    draft: &mut Draft,
) -> usize
    requires steps { F.IsAlwaysCallable step }
    requires bound { (part : _) → F.post step part goes_up → ups + length text.now + 1 < 2 ^ 64 }
    ensures { (source : Source) → ((part : _) (taken : _) → F.post step part taken → taken ≡ step_of source part.now) → (stack : Stack) → laid result stack (held draft.new) ≡ laid ups (walked source stack (parts_of text.now)) (held draft.old) }
{
    for part in text.rsplit('/') {
        ups = take_part(step(part), part, ups, draft);
    }
    ups
}

/// What stands before a path's last slash, and its last part.
pub(crate) fn split_last(path: &str) -> (&str, &str)
    ensures leading { (stack : Stack) → walked from_path stack (parts_of result.0.now) ≡ walked from_path stack (leading_of (parts_of path.now)) }
    ensures last { result.1.now ≡ last_of (parts_of path.now) }
    ensures bound { 0 < length result.0.now → length result.0.now + length result.1.now < length path.now }
{
    path.rsplit_once('/').unwrap_or(("", path))
}

/// Takes a path's last part, with a slash behind all but another name, and answers how many segments are to be taken away before it.
pub(crate) fn take_last(part: &str, draft: &mut Draft) -> usize
    ensures lays { (stack : Stack) → laid result stack (held draft.new) ≡ laid 0 (last_entered stack part.now) (prepended (end_of part.now) (held draft.old)) }
    ensures bound { (result ≤ 1) × (result ≤ length part.now) }
{
    if part == "index.md" {
        draft.prepend("/");
        return 0;
    }
    if let Some(page) = part.strip_suffix(".md") {
        draft.prepend("/");
        draft.prepend(page);
        draft.prepend("/");
        return 0;
    }
    match path_step(part) {
        Step::Stay => {
            draft.prepend("/");
            0
        }
        Step::Up => {
            draft.prepend("/");
            1
        }
        Step::Down => {
            draft.prepend(part);
            draft.prepend("/");
            0
        }
    }
}
