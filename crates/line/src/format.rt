//! How a page is to look.

/// The page's width in columns, and whether it has colours and links.
#[derive(Clone, Copy)]
pub struct Format {
    pub width: usize,
    pub color: bool,
    pub hyperlinks: bool,
}
