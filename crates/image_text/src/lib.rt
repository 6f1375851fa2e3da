//! Images: the pairs of a map as the bytes of a file.
//!
//! The main type is [`PairList`], pairs with strictly rising keys in one buffer:
//! `pairs.push(key, value)?` adds one, and `write_image(&pairs, &mut sink)?` writes the image of
//! all. What is written is a function of the pairs alone. The README beside this crate says what
//! is proved.
#![tactic(auto)]

mod pair_end;
mod pair_list;
mod write;

pub use pair_list::PairList;
pub use write::write_image;
