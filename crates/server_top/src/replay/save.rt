//! The save of a snapshot: its image, its file and its line in the report.
ghost use Rattle.std.specs.Prelude.{◌≡◌, ◌≤◌, IfOk, OnErr, OnOk};
ghost use Rattle.std.specs.FinMap.{insert};
ghost use Rattle.std.specs.Option.{option_map};
ghost use Rattle.std.specs.String.{string_bytes};
ghost use Rattle.image_text.specs.Image.{pairs_text};
ghost use Rattle.io_face.specs.Faults.{Rose};
ghost use Rattle.service_meaning.specs.SaveEnd.{file_name, report_line};
ghost use Rattle.server_top.specs.ReplayRun.{Saves};

use crate::replay::book::Snapshot;
use image_text::write_image;
use io_face::{Failed, Folder};
use service_meaning::Saved;
use std::alloc::Global;
use vm_base::{Bytes, NoMemory};

/// Writes the image of a snapshot to its file and publishes it.
pub(crate) fn save<F: Folder>(alloc: Global, snapshot: &Snapshot, files: &mut F) -> Saved
    ensures saved { Saves snapshot.now result (F.files files.old) (F.files files.new) }
    ensures fault { result ≡ Saved.SinkFault → Rose (F.faults files.old) (F.faults files.new) }
    ensures faults { F.faults files.old ≤ F.faults files.new }
{
    let name = match file_name(alloc, snapshot.number) {
        Ok(name) => name,
        Err(NoMemory) => return Saved::NoMemory,
    };
    match publish_image(snapshot, name.as_str(), files) {
        Ok(()) => Saved::Ok(snapshot.pairs.len() as u64),
        Err(Failed) => Saved::SinkFault,
    }
}

/// Writes the image of a snapshot and publishes it under a name.
fn publish_image<F: Folder>(snapshot: &Snapshot, name: &str, files: &mut F) -> Result<(), Failed>
    ensures ok { OnOk result (F.files files.new ≡ option_map
        (λ old. insert old name.now (pairs_text snapshot.now.pairs)) (F.files files.old)) }
    ensures failed { OnErr result (F.files files.new ≡ F.files files.old) }
    ensures cause { OnErr result (Rose (F.faults files.old) (F.faults files.new)) }
    ensures faults { F.faults files.old ≤ F.faults files.new }
{
    let mut file = files.create(name)?;
    match write_image(&snapshot.pairs, &mut file) {
        Ok(()) => files.publish(file, name),
        Err(Failed) => {
            files.abandon(file);
            Err(Failed)
        }
    }
}

/// The name of the file of a snapshot.
fn file_name(alloc: Global, number: u32) -> Result<String, NoMemory>
    ensures { IfOk result (λ name. string_bytes name ≡ file_name number) }
{
    Ok(format!(in alloc; "save-{number}.img")?)
}

/// The line of a save in the report.
pub(crate) fn report_line(alloc: Global, number: u32, saved: Saved) -> Result<String, NoMemory>
    ensures { IfOk result (λ line. string_bytes line ≡ report_line (number, saved)) }
{
    let line = match saved {
        Saved::Ok(pairs) => format!(in alloc; "save {number} ok {pairs}\n")?,
        Saved::Lost(at) => format!(in alloc; "save {number} lost {at}\n")?,
        Saved::Refused(at) => format!(in alloc; "save {number} refused {at}\n")?,
        Saved::SinkFault => format!(in alloc; "save {number} fault\n")?,
        Saved::NoMemory => format!(in alloc; "save {number} memory\n")?,
    };
    Ok(line)
}
