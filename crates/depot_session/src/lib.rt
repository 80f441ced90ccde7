//! A node on a disk at work: it runs a script with the files of a shelf, or stays and serves what is asked over a
//! source. Both runs start the node from its disk, in `running` and in `server_running`; all else knows it as a
//! `LocalNode`.
//!
//! A script (`run`):
//!
//! - `specs/Sessions.antt` defines its outcome, command by command (`step_of`) and as a whole (`answers_of`): the
//!   lines, the journal, the files, and how the run ends. `run` does just that, or is cut short by lack of memory or
//!   by a fault of the disk, the shelf or the sink. `specs/SessionRuns.antt` says what holds then, of every crash
//!   image too.
//! - If the receipts of the file's journal are true (`depot_queries`), they are true in every crash image: only the
//!   command `receipt` writes their keys, and only `checkpoint` and `sign` write those of checkpoints. `session_laws`
//!   says what each image then has, and which scripts complete (`specs/Unhindered.antt`).
//! - If a script hands in a trace, the reads of the run are kept, as traces record them (`kept_reads`); other scripts
//!   keep none. The last reader that a script made is kept in memory, beside the node.
//! - `whole_script` carries out a script, and `carrying` one command. Most commands ask the node: `requesting` makes
//!   their requests, and `asking` loads a command's file, asks, stores what the node hands out, and prints the reply
//!   last. `reader_commands` does the same for what is asked of readers, and `exporting` hands in the trace. `telling`
//!   writes lines, and `command_heads` the words of a command.
//!
//! A node that stays (`run_server`):
//!
//! - It says by one message whether the node was started (`start_telling`), and then serves it.
//! - `serve_all` serves a `KeptNode`, a node in memory and the file in which its journal is kept. It reads a message, and
//!   those that wait behind it in a source that reads ahead: they are a group. It has their requests carried out in
//!   memory, appends the new records to the file as one group, and then writes the replies; so on to the end of the
//!   input. A reply is written only once each crash image has what it reports.
//! - It leaves a disk as the run of a script does: `specs/ServerRuns.antt`.
#![tactic(auto)]

mod asking;
mod carrying;
mod command_heads;
mod ending;
mod exporting;
mod kept_node;
mod kept_reads;
mod reader_commands;
mod replies;
mod request_hearing;
mod requesting;
mod running;
mod server_ending;
mod server_running;
mod serving;
mod session_laws;
mod start_telling;
mod telling;
mod whole_script;

pub use ending::ScriptEnding;
pub use running::{refusal_line, run};
pub use server_ending::{ServeEnding, ServerEnding};
pub use server_running::run_server;
pub use session_laws::{
    exports_are_right, images_hold_what_receipts_speak_of, runs_leave_true_receipts,
    unhindered_scripts_are_done,
};
pub use start_telling::MESSAGE_VERSION;
