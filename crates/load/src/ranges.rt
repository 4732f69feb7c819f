// The ranges of a load's numbers.

// A load has 0 to 24 rows.
pub const MOST_ROWS: usize = 24;

// A row has 1 to 8 steps.
pub const MOST_STEPS: usize = 8;

// A row has 0 to 4 windows.
pub const MOST_WINDOWS: usize = 4;

// A class is 0 to 3.
pub const MOST_CLASS: u8 = 3;

// A head is 1 for now.
pub const ONLY_HEAD: u8 = 1;

// An identifier is 1 to 4,294,967,295, a box number in the same range.
pub const LARGEST_NUMBER: u32 = 4294967295;

// After a battery swap the newer loggers report this identifier.
pub const FACTORY_IDENTIFIER: u32 = 4294967295;

// A phase is 0 to 86,400.
pub const LATEST_PHASE: u32 = 86400;

// A deadline is 1 to 1,000,000, and the bench clock goes no further.
pub const LAST_MOMENT: u32 = 1000000;

// A cost is 1 to 600.
pub const LARGEST_COST: u32 = 600;

// A wait is 0 to 3,600.
pub const LARGEST_WAIT: u32 = 3600;

// A limit is 1 to 65,535.
pub const LARGEST_LIMIT: u32 = 65535;
