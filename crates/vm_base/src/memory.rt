//! A memory as its owner sees it, whatever keeps its pages.
ghost use Rattle.std.specs.Prelude.{◌≡◌, ◌+◌, ◌<◌, ◌≤◌, ◌^◌, [], length, OnOk, IfErr, Ok, Err};
ghost use Rattle.vm_base.specs.Places.{cells_of_range};
ghost use Rattle.vm_base.specs.MemoryState.{MemoryState, IsMemory, IsKept};
ghost use Rattle.vm_base.specs.MemoryCalls.{read_answer, map_answer, unmap_answer, protect_answer, after_store, IsReady, Touches, TouchFails, Maps, Changes, Refuses};

use crate::faults::Fault;
use crate::permission::Perm;

/// A memory with areas and pages. Addresses are below 2^48, and pages are counted from address 0.
/// After each refusal it holds what it did, and each page that could be stored to still can be.
pub trait Memory {
    /// What stands beside the memory, plain data that no call of this trait changes.
    ghost Aside: { Type 0 };

    ghost aside: { Self → Aside };

    /// What it holds, and what its calls keep.
    ghost state: { Self → MemoryState };

    /// What calls on it, on the process that it may be and on its children may make of it, one
    /// after another: a relation that an implementation picks, and each call keeps.
    ghost went: { Self → Self → Type 0 };

    /// Reads the bytes of a range. An absent page of an area reads as zeros and takes no frame.
    /// After a refusal the buffer is left open.
    fn read(&mut self, addr: u64, buf: &mut [u8]) -> Result<(), Fault>
        requires { addr + length buf.old ≤ 2 ^ 48 }
        ensures bytes { OnOk result (read_answer (state self.old).mem addr (length buf.old) ≡ Ok buf.new) }
        ensures fault { IfErr result
            (λ fault. read_answer (state self.old).mem addr (length buf.old) ≡ Err fault) }
        ensures same { state self.new ≡ state self.old }
        ensures sound { IsMemory (state self.old) }
        ensures aside { aside self.new ≡ aside self.old }
        ensures went { went self.old self.new };

    /// Makes each page of a range (in bytes) present and ready to be stored to. Pages that were
    /// absent are of zeros.
    fn touch(&mut self, addr: u64, len: u64) -> Result<(), Fault>
        requires within { addr + len ≤ 2 ^ 48 }
        requires few { len ≤ 4194304 }
        ensures touched { OnOk result (Touches (state self.old) (state self.new) addr len) }
        ensures fault { IfErr result
            (λ fault. TouchFails (state self.old) (state self.new) addr len fault) }
        ensures keeps { IsKept (state self.old) (state self.new) (cells_of_range addr len) }
        ensures aside { aside self.new ≡ aside self.old }
        ensures went { went self.old self.new };

    /// Stores bytes. Each page of their range has been touched.
    fn store(&mut self, addr: u64, bytes: &[u8])
        requires within { addr + length bytes.now ≤ 2 ^ 48 }
        requires ready { IsReady (state self.old) addr (length bytes.now) }
        ensures stored { state self.new ≡ after_store (state self.old) addr bytes.now }
        ensures keeps { IsKept (state self.old) (state self.new) [] }
        ensures aside { aside self.new ≡ aside self.old }
        ensures went { went self.old self.new };

    /// Makes an area of pages that no area has.
    fn map(&mut self, first: u64, pages: u64, perm: Perm) -> Result<(), Fault>
        requires some { 0 < pages }
        requires within { first + pages ≤ 2 ^ 36 }
        ensures mapped { OnOk result
            (Maps (state self.old) (state self.new) (map_answer (state self.old) first pages perm)) }
        ensures fault { IfErr result
            (Refuses (state self.old) (state self.new) (map_answer (state self.old) first pages perm)) }
        ensures keeps { IsKept (state self.old) (state self.new) [] }
        ensures aside { aside self.new ≡ aside self.old }
        ensures went { went self.old self.new };

    /// Takes pages out of the areas. Those that no area has are passed over.
    fn unmap(&mut self, first: u64, pages: u64) -> Result<(), Fault>
        requires some { 0 < pages }
        requires within { first + pages ≤ 2 ^ 36 }
        ensures unmapped { OnOk result
            (Changes (state self.old) (state self.new) (unmap_answer (state self.old) first pages)) }
        ensures fault { IfErr result
            (Refuses (state self.old) (state self.new) (unmap_answer (state self.old) first pages)) }
        ensures keeps { IsKept (state self.old) (state self.new) [] }
        ensures aside { aside self.new ≡ aside self.old }
        ensures went { went self.old self.new };

    /// Gives pages of areas another permission. They keep their bytes.
    fn protect(&mut self, first: u64, pages: u64, perm: Perm) -> Result<(), Fault>
        requires some { 0 < pages }
        requires within { first + pages ≤ 2 ^ 36 }
        ensures protected { OnOk result
            (Changes (state self.old) (state self.new) (protect_answer (state self.old) first pages perm)) }
        ensures fault { IfErr result
            (Refuses (state self.old) (state self.new) (protect_answer (state self.old) first pages perm)) }
        ensures keeps { IsKept (state self.old) (state self.new) [] }
        ensures aside { aside self.new ≡ aside self.old }
        ensures went { went self.old self.new };

    ghost went_none: { (p : Self) → went p p };

    ghost went_on: { (p q r : Self) → went p q → went q r → went p r };
}
