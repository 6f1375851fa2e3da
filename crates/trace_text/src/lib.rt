//! Scripts and the lines that they print, as text.
//!
//! The main call is [`read_script`]: `read_script(alloc, text)?` gives the frames, the slots and
//! the events of a script, and [`outcome_text`] appends the line of an outcome. A caller may rely
//! on it that a text is read exactly where it is a script, and that a fault is told at the first
//! line that breaks a rule. README.md goes on.
#![tactic(auto)]

mod fault;
mod laws;
mod line;
mod machine;
mod number;
mod printer;
mod reader;
mod script;
mod tokens;

pub use fault::ScriptFault;
pub use laws::{one_line, one_script, script_or_fault};
pub use printer::outcome_text;
pub use reader::read_script;
pub use script::Script;
