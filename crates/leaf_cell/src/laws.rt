//! What a cell has in common with each account that it stands for.
ghost use Rattle.std.specs.Prelude.{◌≡◌, ◌≤◌, ℕ, []};
ghost use Rattle.kernel_meaning.specs.Leaves.{has_pages, has_present, kept_by};
ghost use Rattle.kernel_meaning.specs.CellAccount.{CellAccount};
ghost use Rattle.leaf_cell.specs.CellView.{CellView, AreUnjoined};
ghost use Rattle.leaf_cell.specs.Standing.{StandsFor};
ghost use Rattle.leaf_cell.specs.States.{has_leaf, has_joined};
ghost use Rattle.leaf_cell.specs.Touching.{IsAlone};

/// What a call needs of a cell holds where it holds of the account.
pub fn a_cell_is_as_its_account()
    ensures pages { (view : CellView) (account : CellAccount) → StandsFor view account → has_pages view.leaves.parent ≡ has_pages account.state.leaves.parent }
    ensures present { (view : CellView) (account : CellAccount) → StandsFor view account → (first n : ℕ) →
        has_present view.leaves.parent first n ≡ has_present account.state.leaves.parent first n }
    ensures unjoined { (view : CellView) (account : CellAccount) → StandsFor view account → AreUnjoined account.state.leaves.kept → AreUnjoined view.leaves.kept }
    ensures none { (view : CellView) (account : CellAccount) → StandsFor view account → account.state.leaves.kept ≡ [] → view.leaves.kept ≡ [] }
    ensures leaf { (view : CellView) (account : CellAccount) → StandsFor view account → (n : ℕ) →
        (has_leaf (kept_by view.leaves.kept n) ≡ has_leaf (kept_by account.state.leaves.kept n)) × (has_joined (kept_by view.leaves.kept n) ≡ has_joined (kept_by account.state.leaves.kept n)) }
    ensures alone { (view : CellView) (account : CellAccount) → StandsFor view account → (page : ℕ) → IsAlone account.state.leaves page → IsAlone view.leaves page }

    // Requests that a caller made leave the account as it is, but for their number.
    ensures later { (view : CellView) (account : CellAccount) → StandsFor view account → (made : ℕ) → account.made ≤ made → StandsFor view (record account { made = made }) }
{}
