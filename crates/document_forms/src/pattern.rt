use crate::Symbols;
use wpds_base::Sequence;

/// The symbols that an item takes.
#[derive(Debug, Drop)]
pub enum SetText {
    /// `.`: all symbols that the document declares.
    All,
    /// A symbol, or symbols in braces.
    Listed(Symbols),
}

/// An item of a pattern: one symbol of its set or, with a star, any number of them.
#[derive(Debug, Drop)]
pub struct ItemText {
    pub set: SetText,
    pub star: bool,
}

pub type ItemTexts = Sequence<ItemText>;

/// A set of configurations as it is written: a control, and items by which the stack is read from
/// its top.
#[derive(Debug, Drop)]
pub struct PatternText {
    pub control: u32,
    pub items: ItemTexts,
}
