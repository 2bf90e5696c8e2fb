// How large a sheet is.

// The lines of a sheet.
pub const LINES: usize = 13;

// The most places that a line has: a case has at most 16 bolts and at most 12 anchors.
pub const PLACES: usize = 16;
