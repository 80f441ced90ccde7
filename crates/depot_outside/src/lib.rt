//! What is outside a run: a shelf of named files, a sink, and a disk.
//!
//! Each is a trait, with a fake in memory and a real adapter. A shelf is a map from names to bytes, a sink is the list
//! of the bytes written to it, and a disk is the bytes of one file, each as far as contracts see them. Of a disk
//! contracts also see the crash images, now and at each moment since an earlier one.
//!
//! - A fake's content is visible to contracts. Its calls are numbered from 1, and those with the numbers given to `new`
//!   fail.
//! - A real adapter's content isn't visible: what the system does with the bytes is no fact of a proof.
//! - Each object has a count of its faults, which contracts alone see. It never falls, and a call returns `Failed` only
//!   where it rose in that call. So a caller that passes a fault on can say whose it is.
//!
//! No call is retried after a fault, and nothing here keeps a copy of what is outside.
#![tactic(auto)]

mod calls;
mod disk;
mod disk_history;
mod faults;
mod mem_disk;
mod mem_file;
mod mem_shelf;
mod mem_sink;
mod name_list;
mod outside_error;
mod real_disk;
mod real_shelf;
mod real_sink;
mod shelf;
mod sink;
mod spare_room;
mod stops;
pub mod transfer;
mod undo;

pub use disk::{Back, Disk};
pub use mem_disk::MemDisk;
pub use mem_shelf::MemShelf;
pub use mem_sink::MemSink;
pub use outside_error::{Failed, OutError};
pub use real_disk::RealDisk;
pub use real_shelf::RealShelf;
pub use real_sink::RealSink;
pub use shelf::Shelf;
pub use sink::Sink;
pub use spare_room::{reserve_tightly, spare_beside};
