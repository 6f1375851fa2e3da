//! What is looked at in a store: its pairs, and words of its pages.
ghost use Rattle.std.specs.Prelude.{◌≡◌, ◌+◌, ◌≤◌, ◌^◌, IfOk, IfErr, Err};
ghost use Rattle.std.specs.FinMap.{entries};
ghost use Rattle.vm_base.specs.MemoryCalls.{read_answer};
ghost use Rattle.store_meaning.specs.HashLayout.{Pairs, StandsForMap};
ghost use Rattle.store_meaning.specs.Layout.{word_at};
ghost use Rattle.store_meaning.specs.Standing.{IsStanding};
ghost use Rattle.page_hash.specs.Listing.{wants_memory};

use byteorder::{BigEndian, ByteOrder};
use image_text::PairList;
use memory_views::ReadOnly;
use page_hash::{PairsFault, pairs};
use std::alloc::Global;
use vm_base::{Fault, Memory};

/// All pairs of a store, in rising order of keys. It fails only for want of memory.
pub fn list_of<M: Memory>(alloc: Global, m: &mut M) -> Result<PairList, PairsFault>
    requires stands { IsStanding (M.state m.old) }
    ensures list { IfOk result (λ list.
        (pairs : Pairs) → StandsForMap (M.state m.old).mem pairs → list ≡ entries pairs) }
    ensures fault { IfErr result (λ fault. fault ≡ wants_memory) }
    ensures same { M.state m.new ≡ M.state m.old }
{
    let mut still = ReadOnly { memory: m };
    pairs(alloc, &mut still)
}

/// The word at an address, the highest byte first. It is refused where the address lies in no area.
pub fn word_at<M: Memory>(m: &mut M, addr: u64) -> Result<u64, Fault>
    requires { addr + 8 ≤ 2 ^ 48 }
    ensures word { IfOk result (λ word. word ≡ word_at (M.state m.old).mem addr) }
    ensures fault { IfErr result (λ fault. read_answer (M.state m.old).mem addr 8 ≡ Err fault) }
    ensures same { M.state m.new ≡ M.state m.old }
{
    let mut word = [0; 8];
    m.read(addr, &mut word)?;
    Ok(BigEndian::read_u64(&word))
}
