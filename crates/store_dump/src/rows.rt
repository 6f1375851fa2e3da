//! The rows of a store's pages: for each 32 bytes that are not all zero their address and the
//! bytes, in hexadecimal.
ghost use Rattle.std.specs.Prelude.{◌+◌, ◌≤◌, ◌^◌};

use std::io;
use vm_base::Memory;

const PAGE: usize = 4096;

const ROW: usize = 32;

// Where pages of a store are looked for, and how many: the header, both regions of arrays, and the
// heap.
const PLACES: [(u64, u64); 4] = [
    (0x200, 1),
    (0x8_0000, 64),
    (0x10_0000, 64),
    (0x20_0000, 1024),
];

/// Prints the rows of all pages of a store, in rising order of their addresses. A page that no area
/// has is passed over, and an absent one is of zeros.
pub fn print_store<M: Memory>(rt: &(impl Print + AllocGlobal), m: &mut M) -> io::Result<()> {
    for (first, pages) in PLACES {
        for page in first..first + pages {
            print_page(rt, m, page)?;
        }
    }
    Ok(())
}

// Prints the rows of a page.
fn print_page<M: Memory>(rt: &(impl Print + AllocGlobal), m: &mut M, page: u64) -> io::Result<()>
    requires { page + 1 ≤ 2 ^ 36 }
{
    let mut bytes = [0; PAGE];
    if m.read(page * PAGE as u64, &mut bytes).is_err() {
        return Ok(());
    }
    let mut at = page * PAGE as u64;
    for row in bytes.chunks(ROW) {
        if row.iter().any(|byte| *byte != 0) {
            let digits = hex::encode(rt.alloc(), row)?;
            println!(rt; "{at:x} {digits}")?;
        }
        at = at.saturating_add(ROW as u64);
    }
    Ok(())
}
