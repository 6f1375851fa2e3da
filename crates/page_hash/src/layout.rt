//! Where a table lies.

/// The address of the array of buckets of a table that begins.
pub const ARRAY: u64 = 2_147_483_648;

/// Its page.
pub const ARRAY_PAGE: u64 = 524_288;

/// How many buckets there are first.
pub const BUCKETS: u64 = 512;

/// The header's field with the address of the array.
pub const ARRAY_FIELD: u64 = 2_097_296;

/// The header's field with the number of buckets.
pub const BUCKETS_FIELD: u64 = 2_097_304;

/// The header's field with the number of pairs.
pub const PAIRS_FIELD: u64 = 2_097_312;

/// The end of the heap's area.
pub const HEAP_END: u64 = 9_128_902_656;

/// The bytes of a block's next address and its two lengths. The key stands behind them.
pub const HEAD: usize = 16;
