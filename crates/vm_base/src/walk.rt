//! The walk of an address through four levels of tables, as x86-64 does it.
ghost use Rattle.std.specs.Prelude.{◌≡◌, ◌^◌, ◌<◌};
ghost use Rattle.vm_base.specs.Walk.{walk_of};

/// The indices of an address in the top, upper, middle and leaf table, and its offset in the page.
pub fn split_addr(addr: u64) -> [u16; 5]
    requires { addr < 2 ^ 48 }
    ensures { result ≡ walk_of addr }
{
    [
        (addr >> 39) as u16,
        (addr >> 30 & 0x1ff) as u16,
        (addr >> 21 & 0x1ff) as u16,
        (addr >> 12 & 0x1ff) as u16,
        (addr & 0xfff) as u16,
    ]
}

#[cfg(test)]
mod tests {
    use super::*;
    use std::test::Fail;

    #[test]
    fn an_address_has_four_indices_and_an_offset(rt: HostRuntime) -> Result<(), Fail> {
        let cases = [
            (0, [0, 0, 0, 0, 0]),
            (0x1f_efff, [0, 0, 0, 510, 4095]),
            (0x20_0000, [0, 0, 1, 0, 0]),
            (0xffff_ffff_ffff, [511, 511, 511, 511, 4095]),
            (0x80_4020_1001, [1, 1, 1, 1, 1]),
        ];
        for (address, parts) in cases {
            assert_eq!(rt; split_addr(address), parts);
        }
        Ok(())
    }
}
