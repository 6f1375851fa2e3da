//! A page: 4096 bytes on the heap.
ghost use Rattle.std.specs.Prelude.{◌≡◌, ◌+◌, ◌≤◌, length, IfOk};
ghost use Rattle.vm_base.specs.FlatMemory.{zero_page, spliced};

use std::alloc::Global;
use std::marker::Model;
use vm_base::NoMemory;

/// Bytes in a page, as the x86-64 walk has it.
pub(crate) const PAGE_BYTES: usize = 4096;

/// What an absent page reads as.
pub(crate) static ZEROS: [u8; PAGE_BYTES] = [0; PAGE_BYTES];

/// The bytes of a page. They stay where they are as it is moved.
#[derive(Debug, Drop)]
pub(crate) struct Page {
    bytes: Vec<u8>,
}

impl Model for Page {
    ghost use Rattle.std.specs.Prelude.{List, ℕ, ◌≡◌, vec_len};

    ghost Value = { List ℕ };

    ghost view = { λ page. page.bytes.items };

    ghost invariant = { λ page. vec_len page.bytes ≡ 4096 };
}

impl Page {
    /// A page of zeros.
    pub(crate) fn zeroed(alloc: Global) -> Result<Page, NoMemory>
        ensures { IfOk result (λ page. page ≡ zero_page) }
    {
        let bytes = vec![in alloc; 0; PAGE_BYTES]?;
        Ok(Page { bytes })
    }

    pub(crate) fn bytes(&self) -> &[u8]
        ensures value { result.now ≡ self.now }
        ensures size { length result.now ≡ 4096 }
    {
        &self.bytes
    }

    /// Makes all bytes zeros.
    pub(crate) fn clear(&mut self)
        ensures { self.new ≡ zero_page }
    {
        self.bytes.copy_from_slice(&ZEROS);
    }

    /// Takes over the bytes of another page.
    pub(crate) fn copy_from(&mut self, page: &Page)
        ensures { self.new ≡ page.now }
    {
        self.bytes.copy_from_slice(&page.bytes);
    }

    /// Writes the bytes from a place of the page on.
    pub(crate) fn write(&mut self, at: usize, bytes: &[u8])
        requires { at + length bytes.now ≤ 4096 }
        ensures { self.new ≡ spliced self.old at bytes.now }
    {
        self.bytes[at..at + bytes.len()].copy_from_slice(bytes);
    }
}
