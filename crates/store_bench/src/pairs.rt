//! The pairs of the program: each number has a key of 16 bytes and a value of 100.

/// The bytes of a value.
pub const VALUE: usize = 100;

// An odd number, so that no two numbers have one key, and each byte of a key varies.
const SPREAD: u128 = 0x9e37_79b9_7f4a_7c15_f39c_c060_5ced_c835;

// A prime, so that pairs next to one another in the heap are not asked for one after the other.
const JUMP: u32 = 7919;

/// The key of a number.
pub fn key_of(number: u32) -> [u8; 16] {
    u128::from(number).wrapping_mul(SPREAD).to_be_bytes()
}

/// The value of a number.
pub fn value_of(number: u32) -> [u8; VALUE] {
    let mut value = [0; VALUE];
    value[..4].copy_from_slice(&number.to_be_bytes());
    value
}

/// The number that is asked for at this turn, among so many: all come by turns.
pub fn asked_at(turn: u32, pairs: u32) -> u32 {
    turn.wrapping_mul(JUMP).checked_rem(pairs).unwrap_or(0)
}
