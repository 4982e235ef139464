//! Elements and events.

/// What a page is built of.
#[derive(Clone, Copy, PartialEq, Eq, Debug)]
pub enum Element {
    Paragraph,
    Heading,
    Quote,
    CodeBlock,
    BulletList,
    NumberedList,
    Item,
    DefinitionList,
    Title,
    Definition,
    Emphasis,
    Strong,
    Strikethrough,
    Link,
}

/// An element starts or ends, or something stands in it that holds nothing itself.
#[derive(Clone, Copy, PartialEq, Eq, Debug)]
pub enum Event {
    Start(Element),
    End(Element),
    Text,
    Code,
    SoftBreak,
    HardBreak,
}
