//! A line of the input: `read N`, `get N`, `again N`, `add N`, `clear 0`, parted by one space.
ghost use Rattle.store_meaning.specs.Standing.{IsStanding};

use crate::calls::{add_pairs, get_pairs, put_again, read_words};
use page_hash::{clear, len};
use vm_base::Memory;

/// Makes the calls of a line on a store. It answers the sum of a line that reads, how many pairs
/// there are behind one that writes, and nothing where the line is no call or one of its calls was
/// refused.
pub fn run_line<M: Memory>(m: &mut M, line: &str) -> Option<u64>
    requires stands { IsStanding (M.state m.old) }
    ensures stands { IsStanding (M.state m.new) }
{
    let (name, digits) = line.split_once(' ')?;
    let count = digits.parse::<u32>().ok()?;
    let pairs = u32::try_from(len(m)).ok()?;
    match name {
        "read" => read_words(m, count),
        "get" => get_pairs(m, pairs, count),
        "again" => {
            put_again(m, pairs, count).ok()?;
            Some(len(m))
        }
        "add" => {
            add_pairs(m, pairs, count).ok()?;
            Some(len(m))
        }
        "clear" => {
            clear(m);
            Some(len(m))
        }
        _ => None,
    }
}
