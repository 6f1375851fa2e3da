//! Where a heap lies, and the classes of its blocks.
ghost use Rattle.std.specs.Prelude.{◌≡◌, ◌<◌, ◌≤◌};
ghost use Rattle.store_meaning.specs.Layout.{list_field, class_of};

/// The header's address, where the heap's top stands.
pub const HEADER: u64 = 2_097_152;

/// The header's page.
pub const HEADER_PAGE: u64 = 512;

/// The heap's first address.
pub const HEAP: u64 = 8_589_934_592;

/// The heap's first page.
pub const HEAP_PAGE: u64 = 2_097_152;

/// How many pages the heap has.
pub const HEAP_PAGES: u64 = 131_584;

// The address in the header where the first free block of a class stands.
pub fn list_field_of(class: u8) -> u64
    requires { (5 ≤ class) × (class < 22) }
    ensures { result ≡ list_field class }
{
    HEADER + 8 + 8 * (class as u64 - 5)
}

/// The least class whose blocks hold so many bytes.
pub fn class_for(size: u32) -> u8
    requires { size ≤ 2097152 }
    ensures least { result ≡ class_of size }
    ensures within { (5 ≤ result) × (result < 22) }
{
    let mut class = 5;
    while class < 21 && 1 << class < size {
        class += 1;
    }
    class
}
