//! Why no script was read.
ghost use Rattle.std.specs.Prelude.{◌≡◌};
ghost use Rattle.trace_text.specs.declared.fault.ScriptFault.TheVariants.{NoMemory as no_memory_left};

use std::alloc::AllocFailed;
use vm_base::NoMemory;

/// Why no script was read.
#[derive(Clone, Copy, Debug, PartialEq, Eq)]
pub enum ScriptFault {
    /// The text is no script. The line, counted from 1, is the first that breaks a rule, or the one
    /// that is missing behind the last.
    Bad { line: u64 },
    /// The allocator refused.
    NoMemory,
}

impl From<NoMemory> for ScriptFault {
    ghost from_gives = { λ _ fault. fault ≡ no_memory_left };

    fn from(_refused: NoMemory) -> ScriptFault {
        ScriptFault::NoMemory
    }
}

impl<T: Drop> From<AllocFailed<T>> for ScriptFault {
    ghost from_gives = { λ _ fault. fault ≡ no_memory_left };

    fn from(_refused: AllocFailed<T>) -> ScriptFault {
        ScriptFault::NoMemory
    }
}
