//! Files under names, each written once and then published.
ghost use Rattle.std.specs.Prelude.{◌≡◌, ℕ, ◌<◌, ◌≤◌, [], Option, None, Some, IfOk, IfSome, OnOk, OnErr};
ghost use Rattle.std.specs.Option.{option_map};
ghost use Rattle.io_face.specs.Faults.{Rose};
ghost use Rattle.io_face.specs.Folder.{Files, Loads, Publishes};

use crate::failed::Failed;
use crate::sink::Sink;
use crate::source::Source;

/// A folder of files. A file that it hands out has to be handed back: a read one to `close`, a
/// written one to `publish` or `abandon`.
pub trait Folder {
    /// A file that is read.
    type In: Source;

    /// A file that is written and not published yet.
    type Out: Sink;

    /// How often the outside has failed here. It never falls. The faults of a file are in it once
    /// the file was closed or abandoned.
    ghost faults: { Self → ℕ };

    /// The published files, where an implementation tells them. Only a `publish` that succeeds
    /// changes them.
    ghost files: { Self → Option Files } = { λ _. None };

    /// Opens the file of this name, and answers `None` where there is none.
    fn load(&mut self, name: &str) -> Result<Option<Self::In>, Failed>
        ensures loaded { IfOk result (λ found.
            Loads (files self.old) name.now (option_map (λ input. Self.In.left input) found)) }
        ensures fresh { IfOk result (λ found. IfSome found (λ input. Self.In.faults input ≡ 0)) }
        ensures files { files self.new ≡ files self.old }
        ensures faults { faults self.old ≤ faults self.new }
        ensures quiet { OnOk result (faults self.new ≡ faults self.old) }
        ensures cause { OnErr result (Rose (faults self.old) (faults self.new)) };

    /// Begins an empty file that is to be published under this name.
    fn create(&mut self, name: &str) -> Result<Self::Out, Failed>
        ensures created { IfOk result
            (λ out. IfSome (files self.old) (λ _. Self.Out.written out ≡ Some [])) }
        ensures fresh { IfOk result (λ out. Self.Out.faults out ≡ 0) }
        ensures files { files self.new ≡ files self.old }
        ensures faults { faults self.old ≤ faults self.new }
        ensures quiet { OnOk result (faults self.new ≡ faults self.old) }
        ensures cause { OnErr result (Rose (faults self.old) (faults self.new)) };

    /// Lets the name stand for what was written. After `Failed` it stands for what it did, and
    /// the file is gone. Whether the faults of the file are counted is left open.
    fn publish(&mut self, out: Self::Out, name: &str) -> Result<(), Failed>
        ensures ok { OnOk result
            (Publishes (files self.old) (files self.new) name.now (Self.Out.written out)) }
        ensures failed { OnErr result (files self.new ≡ files self.old) }
        ensures faults { faults self.old ≤ faults self.new }
        ensures quiet { OnOk result (Self.Out.faults out ≡ 0 → faults self.new ≡ faults self.old) }
        ensures cause { OnErr result (Rose (faults self.old) (faults self.new)) };

    /// Takes a read file back.
    fn close(&mut self, input: Self::In)
        ensures files { files self.new ≡ files self.old }
        ensures faults { faults self.old ≤ faults self.new }
        ensures quiet { Self.In.faults input ≡ 0 → faults self.new ≡ faults self.old }
        ensures counted { 0 < Self.In.faults input → Rose (faults self.old) (faults self.new) };

    /// Takes a file back that is not to be published.
    fn abandon(&mut self, out: Self::Out)
        ensures files { files self.new ≡ files self.old }
        ensures faults { faults self.old ≤ faults self.new }
        ensures counted { 0 < Self.Out.faults out → Rose (faults self.old) (faults self.new) };
}
