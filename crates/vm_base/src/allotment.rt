//! Where frames come from, for a value that keeps its tables and pages in frames.
ghost use Rattle.std.specs.Prelude.{◌≡◌, ℕ, ◌+◌, ◌<◌, Option, None, IfOk, IfErr, IfSome, OnOk, OnErr};
ghost use Rattle.vm_base.specs.FlatMemory.{zero_page};
ghost use Rattle.vm_base.specs.Counts.{next_count};
ghost use Rattle.vm_base.specs.Deals.{Deal, Granted, Denied, Returned, SpendsOne};

use crate::frame_request::Want;
use crate::page_frame::Frame;
use crate::refusals::Refused;

/// Where one user gets its frames and gives them back. Each call is a deal that leads from one
/// state to another along `goes`; a call that makes several deals says their list.
pub trait Allot {
    /// What a proof may know of it, plain data.
    ghost State: { Type 0 };

    ghost state: { Self → State };

    /// How often this user was refused a frame. It never falls.
    ghost refused: { State → ℕ };

    /// How many frames this user has from it.
    ghost out: { State → ℕ };

    /// How many frames may still be granted, where an implementation tells it. No call changes
    /// whether it does.
    ghost grants: { Self → Option ℕ } = { λ _. None };

    /// Which deals may come in a state, and which states they may leave.
    ghost goes: { State → Deal → State → Type 0 };

    /// Takes a frame of zeros. After `Refused` the user has what it had, and may ask again.
    fn take(&mut self, want: Want) -> Result<Frame, Refused>
        requires { IfSome (grants self.old) (λ left. 0 < left) }

        // A frame was granted.
        ensures zeros { IfOk result (λ frame. frame.bytes ≡ zero_page) }
        ensures granted { OnOk result (goes (state self.old) (Granted want) (state self.new)) }
        ensures taken { OnOk result (out (state self.new) ≡ out (state self.old) + 1) }
        ensures unrefused { OnOk result (refused (state self.new) ≡ refused (state self.old)) }
        ensures spent { OnOk result (SpendsOne (grants self.old) (grants self.new)) }

        // No frame was granted.
        ensures denied { IfErr result (λ e. goes (state self.old) (Denied want e.at) (state self.new)) }
        ensures kept { OnErr result (out (state self.new) ≡ out (state self.old)) }
        ensures counted { OnErr result (refused (state self.new) ≡ next_count (refused (state self.old))) }
        ensures at { IfErr result (λ e. e.at ≡ refused (state self.new)) }
        ensures unspent { OnErr result (grants self.new ≡ grants self.old) };

    /// Gives a frame back.
    fn give(&mut self, frame: Frame)
        requires { 0 < out (state self.old) }
        ensures returned { goes (state self.old) Returned (state self.new) }
        ensures given { out (state self.new) + 1 ≡ out (state self.old) }
        ensures unrefused { refused (state self.new) ≡ refused (state self.old) }
        ensures unspent { grants self.new ≡ grants self.old };
}
