//! What the modelled kernel means where frames are counted: definitions and laws, for any number
//! of snapshots that live at once and for every mode of fork.
//!
//! The main type is `CellLeaves` of `specs/Leaves.antt`: which page of a cell is whose, and what
//! each snapshot has there. `touched page course` of `specs/CellActs.antt` is one act on it. A
//! caller may rely on `held_frames` of `specs/FrameLaw.antt`: the frames that are out of the pool
//! are those that it counts, and no others. No code here runs: the functions are the laws. The
//! README beside this crate says which definition is in which file.
#![tactic(auto)]

mod laws;

pub use laws::{
    a_cell_log_keeps_each_number_once, a_pool_log_keeps_its_account, a_present_page_is_touched,
    frames_lie_in_directories_and_cells, the_parent_alone_changes_the_load,
};
