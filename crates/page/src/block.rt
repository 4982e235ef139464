//! Where a page's text stands.

/// The inline context that the renderer is in.
#[derive(Clone, Copy)]
pub enum InlineContext {
    Normal,
    /// A title of a definition list: it is fully styled already.
    Term,
}

/// The code block that is open. An enum of its own, as the Rust that is ported has it.
#[derive(Clone, Copy)]
pub enum CodeBlockState<S> {
    /// A block that no highlighter has taken.
    Verbatim,
    /// A block that the page's highlighter has taken, and its state before the line in hand.
    Highlighted(S),
}

/// The block context that the renderer is in.
#[derive(Clone, Copy)]
pub enum BlockContext<S> {
    /// No code block is open.
    Normal(InlineContext),
    /// A code block is open.
    Code(CodeBlockState<S>),
}
