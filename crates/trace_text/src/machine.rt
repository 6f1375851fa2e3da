//! The machine that a script asks for.
ghost use Rattle.std.specs.Prelude.{◌≡◌};
ghost use Rattle.trace_text.specs.ScriptReading.{is_machine, machine_fields, spelled_machine};

use crate::number::count;
use crate::tokens::parts_at;

/// The slots where a machine's line has none.
const CELLS: u32 = 256;

/// How many frames the machine has, and how many slots for cells.
#[derive(Clone, Copy, Debug)]
pub(crate) struct Machine {
    pub(crate) frames: u32,
    pub(crate) cells: u32,
}

/// The machine of its line.
#[tactic(auto, unfolding(crate::specs::ScriptReading::spelled_machine))]
pub(crate) fn machine_of(line: &[u8]) -> Option<Machine>
    ensures { result ≡ spelled_machine line.now }
{
    let (word, fields) = parts_at(line, b' ')?;
    if word != b"machine".as_slice() {
        return None;
    }
    let machine = machine_fields(fields)?;
    machine.is_within_bounds().then_some(machine)
}

#[tactic(auto, unfolding(crate::specs::ScriptReading::machine_fields))]
fn machine_fields(fields: &[u8]) -> Option<Machine>
    ensures { result ≡ machine_fields fields.now }
{
    match parts_at(fields, b' ') {
        Some((frames, cells)) => {
            let frames = count(frames)?;
            let cells = count(cells)?;
            Some(Machine { frames, cells })
        }
        None => {
            let frames = count(fields)?;
            Some(Machine {
                frames,
                cells: CELLS,
            })
        }
    }
}

impl Machine {
    fn is_within_bounds(&self) -> bool
        ensures { result ≡ is_machine self.now }
    {
        self.frames >= 8 && self.frames <= 65_536 && self.cells >= 1 && self.cells <= 512
    }
}
