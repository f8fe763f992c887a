// The most that a grammar may have. The specifications have the same numbers.
pub const TOKENS: u32 = 1024;

pub const CATEGORIES: u32 = 64;

// One height for each category.
pub const HEIGHTS: usize = CATEGORIES as usize;

pub const DIMENSION: u32 = 3;

pub const FUNCTIONS: u32 = 512;

pub const ARGUMENTS: u32 = 3;

pub const CONSTITUENTS: u32 = 3;

pub const SYMBOLS: u32 = 16;

pub const PLACES: u32 = 512;
