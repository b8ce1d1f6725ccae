//! The limits, each by its name. The definitions have them under the same names, and every contract cites those: another number
//! here is refused by the proofs.

/// The most places that a site may have.
pub const MOST_PLACES: usize = 256;

/// The most rows of a hall.
pub const MOST_ROWS: usize = 16;

/// The most columns of a hall.
pub const MOST_COLUMNS: usize = 16;

/// The largest radius of a hall.
pub const MOST_RADIUS: usize = 30;

/// The lowest reading that is stored, in tenths of a degree.
pub const LOWEST_READING: i16 = -400;

/// The highest reading that is stored.
pub const HIGHEST_READING: i16 = 600;

/// The coolest reading at which a place is open.
pub const COOLEST_OPEN: i16 = 50;

/// The warmest reading at which a place is open.
pub const WARMEST_OPEN: i16 = 300;
