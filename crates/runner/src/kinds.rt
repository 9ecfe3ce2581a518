// The kinds of the words that a run meets. Any other ends a block.
pub const OPERATE: u8 = 3;

pub const UNLESS: u8 = 4;

pub const SKIP: u8 = 5;

pub const RESET: u8 = 7;

pub const STEP: u8 = 8;

pub const TAKE: u8 = 9;

pub const LITERAL: u8 = 10;

pub const GIVE: u8 = 11;
