// 01's two constant tables, beside each other: the fixed lengths of frames and the sixteen digit characters. The frames above use the first, this crate the second.

// "Fixed parts by kind, in a constant table of lengths": in bytes, at the place of the kind. There is no kind 0.
pub const LENGTHS: [u8; 5] = [0, 14, 9, 17, 11];

// The sixteen digit characters, each at the place of its number.
pub const DIGITS: [u8; 16] = *b"0123456789abcdef";
