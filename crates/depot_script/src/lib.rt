//! Scripts: texts that say what a node is to do, one command a line (docs/FORMATS.md, "Scripts").
//!
//! A script is plain data: contracts see it as a list of commands, and keys, values and names of files as lists of
//! bytes. Each script that has a text (`IsScript`) has one, and is read back from it. Any other text is refused with
//! its first faulty line and that line's first fault.
//!
//! `specs/Commands.antt` has the table of commands, in the language of lines of `depot_lines`, and `Scripts` whole
//! texts. A new kind of command is a variant of `Command` and of `CommandVerb`, a line of the table with its law, and a
//! reader and a writer with no proof file.
//!
//! `command_lines` reads the words of commands, `script_parse` whole texts. `command_writers` writes the words of
//! commands, `script_print` whole texts, and heads of lines.
//!
//! Nothing here runs a command.
#![tactic(auto)]

mod command;
mod command_lines;
mod command_verb;
mod command_writers;
mod script;
mod script_laws;
mod script_parse;
mod script_print;

pub use command::Command;
pub use command_verb::CommandVerb;
pub use script::Script;
pub use script_laws::{scripts_are_read_back, scripts_have_one_spelling};
pub use script_parse::parse_script;
pub use script_print::{command_head, print_script};
