//! What a node knows, answered to the program beside it: its status, convictions, keys, latest writes and updates; and
//! questions and answers as bytes.
//!
//! - A `Question` is a value, and so is the `QuestionAnswer`. The answer is defined once (`specs/Answers.antt`), by
//!   the node's setting and its journal alone. Asking changes nothing: `ask` borrows the node immutably.
//! - Long answers come in pages (`limits.rt`): each says whether there is more, and the next question names where to
//!   continue.
//! - The texts of questions and answers (`decode_question`, `encode_answer`; docs/FORMATS.md, "Requests"): each is a
//!   byte for its kind, and the kind's fields, like requests and replies. The kinds are 16 to 22, in hexadecimal 10 to
//!   16, which no request has. A text is that of one question, or has its first fault at one offset.
#![tactic(auto)]

mod answer_parts;
mod answer_writer;
mod asking;
mod convictions;
mod keys;
mod latest;
mod limits;
mod question;
mod question_answer;
mod question_laws;
mod question_reader;
mod status;
mod updates;

pub use answer_writer::encode_answer;
pub use asking::ask;
pub use limits::{MOST_KEYS_TOLD, MOST_PROOFS_TOLD, MOST_UPDATES_TOLD};
pub use question::Question;
pub use question_answer::{
    ConvictionAt, ConvictionPage, KeyPage, LatestWrite, NodeStatus, QuestionAnswer, UpdateFacts,
    UpdateKeys, UpdatePage, WriteSays,
};
pub use question_laws::{
    answers_are_read_in_one_way, question_texts_begin_with_their_kind,
    questions_are_read_in_one_way,
};
pub use question_reader::decode_question;
