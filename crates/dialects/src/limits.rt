// How many patterns there can be.

// A dialect means at most this many patterns.
pub const MOST_PATTERNS: usize = 65535;

// A file has at most this many patterns: each takes three bytes at least, and the file 65,535 at most.
pub const MOST_FILE_PATTERNS: usize = 21845;
