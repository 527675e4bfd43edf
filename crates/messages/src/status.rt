//! The exit statuses of the command.

/// There is an answer.
pub const DONE: u8 = 0;

/// The certificate is not valid, or no loop was found.
pub const NO: u8 = 1;

/// The words are not a command.
pub const USAGE: u8 = 2;

/// A text is refused.
pub const REFUSED: u8 = 3;

/// A file could not be loaded.
pub const FILE_FAULT: u8 = 4;

/// The output failed.
pub const OUT_FAULT: u8 = 5;

/// Memory ran out, or a limit on the work was met.
pub const MEMORY: u8 = 6;

/// A query has more derivations than were to be looked at.
pub const STOPPED: u8 = 7;

/// A run came to a value that does not fit.
pub const OVERFLOW: u8 = 8;
