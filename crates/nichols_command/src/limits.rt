//! The limits and defaults of the options.

/// The most digits of a number.
pub const DIGITS_MOST: usize = 9;

/// The degree limit without `--degree`; the greatest is `nichols_braid::MOST_DEGREES`, and the least is 0.
pub const DEGREE_DEFAULT: u32 = 12;

/// The rows limit without `--rows`; the greatest is `nichols_braid::MOST_ROWS`, and the least is 1.
pub const ROWS_DEFAULT: u32 = 1024;

/// The number of workers without `--workers`.
pub const WORKERS_DEFAULT: u32 = 4;

/// The greatest number of workers; the least is 1.
pub const WORKERS_MOST: u32 = 16;

/// The degrees per wave without `--window`.
pub const WINDOW_DEFAULT: u32 = 2;

/// The most degrees per wave; the least is 1.
pub const WINDOW_MOST: u32 = 8;
