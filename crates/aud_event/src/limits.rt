//! The limits of the formats. Every limit is on one fact or on the plan; none is on totals.

/// The most logs that a plan may have. It has at least one.
pub const LOGS_MAX: u32 = 64;

/// The most objects that a plan may have. It may have none.
pub const OBJECTS_MAX: usize = 256;

/// The most bytes of an object's name. It has at least one.
pub const NAME_MAX: usize = 32;

/// Places in a log are below this, and the count of an end mark is at most this.
pub const PLACES: u32 = 4096;

/// Stamps are below this.
pub const STAMPS: u32 = 262_144;

/// Transactions' numbers are below this in the first format.
pub const TRANSACTIONS_ONE: u32 = 1024;

/// Transactions' numbers are below this in any format, and in order texts.
pub const TRANSACTIONS: u32 = 4096;

/// The least value at which a counter may open, -2^62.
pub const COUNTER_MIN: i64 = -4_611_686_018_427_387_904;

/// The greatest value at which a counter may open, 2^62.
pub const COUNTER_MAX: i64 = 4_611_686_018_427_387_904;

/// The least number that is added to a counter at once, -2^31.
pub const LEAST_ADDEND: i64 = -2_147_483_648;

/// The greatest number that is added to a counter at once, 2^31.
pub const GREATEST_ADDEND: i64 = 2_147_483_648;
