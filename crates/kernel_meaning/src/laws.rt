//! Laws of the definitions, for whatever cells, pages and answers.
ghost use Rattle.std.specs.Prelude.{◌≡◌, ◌≢◌, ℕ, ◌+◌, sum_by, IsSome, List};
ghost use Rattle.vm_base.specs.Places.{directory_frames};
ghost use Rattle.kernel_meaning.specs.Leaves.{share, version_at, AreRising};
ghost use Rattle.kernel_meaning.specs.CellActs.{Course, course_touched};
ghost use Rattle.kernel_meaning.specs.CellAccount.{CellEntry, account_of, AreEntries};
ghost use Rattle.kernel_meaning.specs.PoolAccount.{PoolAct, PoolEntry, PoolAccount, pool_act, pool_account_of, load, MayStandIn, ArePoolEntries, IsPoolAccount};
ghost use Rattle.kernel_meaning.specs.FrameLaw.{Leaves, held_frames, parent_cells, snapshot_tables};

/// The frames that are out are the directories of both sides and the share of each cell.
pub fn frames_lie_in_directories_and_cells()
    ensures { (leaves : Leaves) →
        held_frames leaves ≡ directory_frames (parent_cells leaves) + snapshot_tables leaves + sum_by (λ entry. share entry.1) leaves }
{}

/// The touch of a present page is never refused, whatever is answered.
pub fn a_present_page_is_touched()
    ensures { (page : ℕ) (course : Course) →
        IsSome (version_at course.cell.parent page) → (course_touched page course).refused ≡ course.refused }
{}

/// In a log of a cell's lock the snapshots that the cell keeps are in rising order, each once.
pub fn a_cell_log_keeps_each_number_once()
    ensures { (entries : List CellEntry) → AreEntries entries → AreRising (account_of entries).state.leaves.kept }
{}

/// In a log of the pool's lock no more is given than taken, and no more is out than was made or
/// than the load; each number is open and each seat in a stretch at most once.
pub fn a_pool_log_keeps_its_account()
    ensures { (made policies : ℕ) (log : List PoolEntry) → ArePoolEntries made policies log → IsPoolAccount made (pool_account_of log) }
{}

/// Only an act of the parent's seat, which is number 0, changes the load.
pub fn the_parent_alone_changes_the_load()
    ensures { (made policies : ℕ) (account : PoolAccount) (act : PoolAct) (seat : ℕ) →
        MayStandIn made policies account act seat → seat ≢ 0 → load (pool_act act seat account) ≡ load account }
{}
