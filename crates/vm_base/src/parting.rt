//! A process whose children are snapshots of their own.
ghost use Rattle.std.specs.Prelude.{◌≡◌};

use crate::copying::Copying;
use crate::process::Process;

/// A process whose children are snapshots of their own, which others read and copy while it goes
/// on.
pub trait Parting: Process<Child = <Self as Parting>::Own> {
    /// A child.
    type Own: Copying;

    /// What a child holds is the memory that was kept for it.
    ghost kept_own: { (p : Self) (c : Self.Own) → (Self.Own.snapshot c).mem ≡ Self.Process.kept (Self.Process.beside p) c };

    /// Its number and home stand beside it, so no call on it changes them.
    ghost child_aside: { (c d : Self.Own) → Self.Own.aside c ≡ Self.Own.aside d
        → (Self.Process.child_number c ≡ Self.Process.child_number d) × (Self.Process.child_home c ≡ Self.Process.child_home d) };
}
