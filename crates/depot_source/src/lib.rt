//! Where a run reads: a source of bytes, and the messages that come over it.
//!
//! A `Source` gives bytes piece by piece. Contracts see what any source gave, standard input too: it is what its calls
//! returned. What is still to come they see of the fake in memory alone. A source has a count of its faults, which
//! contracts alone see, like everything outside a run.
//!
//! A message is four bytes, a length, and then that many bytes. `hear` reads the next one. It reports a length that no
//! message has, and an end within a message, and reads no byte after these.
//!
//! A source that reads ahead (`Buffered`) knows of messages that wait, and takes one without a read (`Waiting`). The
//! bytes that it read and hasn't given yet are still to come.
#![tactic(auto)]

mod buffered;
mod hearing;
mod mem_source;
mod message_laws;
mod real_source;
mod source;
mod source_history;
mod waiting;

pub use buffered::Buffered;
pub use hearing::{HearError, MOST_MESSAGE, hear};
pub use mem_source::MemSource;
pub use message_laws::messages_are_read_in_one_way;
pub use real_source::RealSource;
pub use source::Source;
pub use waiting::Waiting;
