//! What is kept under a hash or a mark of what a node accepted: values, the statements that others signed, what others
//! vouched for, and who is convicted. All of it only grows. Nothing is judged here: not whether an update names a
//! value, whether a contradiction convicts its writer, or whether a voucher or a proof can be believed.
//!
//! - `Values`: a map from SHA-256 to the first value that was added with it. Each has the hash under which it is kept,
//!   so a look-up never hashes.
//! - `SeenStatements`: contradictions among the signed statements that a node took from others: equivocation, and
//!   steps back. A new statement is looked up in it: the first kept one that it contradicts, and how (`Found`). Each
//!   is kept with its id, so that nothing is hashed twice, and without its body, which is the text of the statement.
//! - `Vouched`: which updates others vouched for, as the article names it, and who is convicted. An id that some other
//!   node's voucher names is vouched, and stays so when the node that vouched is convicted. A convicted node stays
//!   convicted.
//! - `VouchedIds`: a set of ids alone, as a node also keeps it of its own vouchers.
//!
//! What callers have to know:
//!
//! - Contracts see kept statements as their list in the order in which they were kept, and the number of statements
//!   for which memory is reserved; vouched ids and convicted nodes as lists with each once; values by what is held
//!   under each hash, and for which hashes memory is reserved.
//! - Memory for the hash of a value can be reserved before the value comes, and stays reserved whatever else is
//!   reserved or added. Memory for the convictions of all nodes is reserved at the start.
//! - Kept statements are listed under marks: each under its writer and seq, an update also under its writer and prev,
//!   and under its id. Two statements that contradict each other share such a mark, or one's prev is the other's id.
//!   So `contradiction` searches at most four of these lists, and `find` one: a look-up costs in proportion to the
//!   kept statements with a mark that it asks for, not to all kept ones.
#![tactic(auto)]

mod firsts;
mod heads;
mod ids;
mod kept_statement;
mod kinds;
mod marks;
mod seen_statements;
mod settled;
mod table;
mod values;
mod vouched;

pub use ids::VouchedIds;
pub use kept_statement::KeptStatement;
pub use seen_statements::{Found, SeenStatements};
pub use values::Values;
pub use vouched::Vouched;
