//! The history of an editing session: its edits are taken back and made again, and building cells is never needed for it. Also the lines
//! of a studio, which are those of an edit script and `undo` and `redo`, and the replies to them.
#![tactic(auto)]

mod history;
mod laws;
mod steps;
mod studio_command;
mod studio_lines;
mod studio_reply;

pub use history::{History, NoHistory, NoStep};
pub use laws::{
    changes_are_one, changes_keep_histories, redo_takes_an_undo_back, studio_lines_say_one_command,
    the_last_step_is_kept, undo_takes_an_edit_back,
};
pub use steps::{MOST_KEPT_CELLS, MOST_STEPS};
pub use studio_command::StudioCommand;
pub use studio_lines::{read_studio_line, write_studio_reply};
pub use studio_reply::StudioReply;
