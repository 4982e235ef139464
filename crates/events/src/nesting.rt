//! Where an event may stand.
ghost use Rattle.std.specs.Prelude.{◌≡◌};
ghost use Rattle.events.specs.Nesting.{content_of, content_in, role_of, takes, innermost, is_innermost, any_link, has_place};

use crate::element::{Element, Event};

/// What may stand directly inside an element, or on the page itself.
#[derive(Clone, Copy)]
pub(crate) enum Content {
    Blocks,
    Inlines,
    Both,
    Entries,
    Terms,
    Letters,
}

/// As what an event stands there.
#[derive(Clone, Copy)]
pub(crate) enum Role {
    Block,
    Inline,
    Plain,
    Entry,
    Term,
}

// What an element holds.
fn content_of(element: Element) -> Content
    ensures { result ≡ content_of element }
{
    match element {
        Element::Quote => Content::Blocks,
        Element::Item | Element::Definition => Content::Both,
        Element::BulletList | Element::NumberedList => Content::Entries,
        Element::DefinitionList => Content::Terms,
        Element::CodeBlock => Content::Letters,
        Element::Paragraph | Element::Heading | Element::Title => Content::Inlines,
        Element::Emphasis | Element::Strong | Element::Strikethrough | Element::Link =>
            Content::Inlines,
    }
}

// As what an element stands in another.
fn role_of(element: Element) -> Role
    ensures { result ≡ role_of element }
{
    match element {
        Element::Item => Role::Entry,
        Element::Title | Element::Definition => Role::Term,
        Element::Emphasis | Element::Strong | Element::Strikethrough | Element::Link =>
            Role::Inline,
        _ => Role::Block,
    }
}

// Whether a content takes a role.
fn takes(content: Content, role: Role) -> bool
    ensures { result ≡ takes content role }
{
    match content {
        Content::Blocks => matches!(role, Role::Block),
        Content::Inlines => matches!(role, Role::Inline | Role::Plain),
        Content::Both => matches!(role, Role::Block | Role::Inline | Role::Plain),
        Content::Entries => matches!(role, Role::Entry),
        Content::Terms => matches!(role, Role::Term),
        Content::Letters => matches!(role, Role::Plain),
    }
}

// The element that was opened last.
fn innermost(open: &[Element]) -> Option<Element>
    ensures { result ≡ innermost «open».now }
{
    open.last().copied()
}

// What may stand next.
fn content_in(open: &[Element]) -> Content
    ensures { result ≡ content_in «open».now }
{
    innermost(open).map_or(Content::Blocks, content_of)
}

// Whether this is the innermost open element.
fn is_innermost(open: &[Element], element: Element) -> bool
    ensures { result ≡ is_innermost «open».now element }
{
    open.last() == Some(&element)
}

// Whether a link is open.
fn any_link(open: &[Element]) -> bool
    ensures { result ≡ any_link «open».now }
{
    open.contains(&Element::Link)
}

/// Whether an event may stand in these open elements, the innermost last.
pub fn has_place(open: &[Element], event: Event) -> bool
    ensures { result ≡ has_place «open».now event }
{
    match event {
        Event::Start(Element::Link) => takes(content_in(open), Role::Inline) && !any_link(open),
        Event::Start(element) => takes(content_in(open), role_of(element)),
        Event::End(element) => is_innermost(open, element),
        Event::Text => takes(content_in(open), Role::Plain),
        Event::Code | Event::SoftBreak | Event::HardBreak => takes(content_in(open), Role::Inline),
    }
}
