/// Bytes of a document.
pub const MOST_BYTES: usize = 4_194_304;

/// Control states of a document.
pub const MOST_CONTROLS: usize = 1_000;

/// Stack symbols of a document, or points of a program.
pub const MOST_SYMBOLS: usize = 40_000;

/// Rules of a system.
pub const MOST_RULES: usize = 130_000;

/// Symbols that a rule may leave on top.
pub const MOST_PUSHED: usize = 2;

/// Queries of a document.
pub const MOST_QUERIES: usize = 1_000;

/// Items of a pattern.
pub const MOST_ITEMS: usize = 1_000;

/// Edges of the automaton of a pattern.
pub const MOST_EDGES: usize = 1_000_000;

/// The largest cap of a cost, so that no sum of two passes 64 bits.
pub const MOST_COST: u64 = 1_000_000_000_000_000_000;

/// Facts of gen-kill weights.
pub const MOST_FACTS: usize = 1_024;

/// Variables of copy constants.
pub const MOST_COPIED: usize = 64;

/// Variables of relations.
pub const MOST_RELATED: usize = 24;

/// How deep an expression is at most.
pub const MOST_DEPTH: u32 = 64;

/// Seats at a book, one for each worker.
pub const MOST_SEATS: u32 = 64;

/// Rungs of a ladder.
pub const MOST_RUNGS: u32 = 10_000;

/// The size of the runs that are written: of each the number of its rules, and one more.
pub const MOST_TRACED: u64 = 100_000;
