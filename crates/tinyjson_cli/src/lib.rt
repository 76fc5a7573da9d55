//! What the programs share on a command line: arguments, failures and statuses, inputs, outputs, and files that are
//! replaced.
#![tactic(auto)]

mod answer;
mod arguments;
mod failure;
mod files;
mod folder;
mod in_place;
mod input;
mod layout;
mod line_run;
mod lines;
mod operands;
mod output;
mod paced;
mod place;
mod program;
mod refusal;
mod replacement;
mod run;
mod shown;
mod status;
mod texts;
mod tool;
mod unanswered;
mod values;

pub use answer::{Answer, answer_files};
pub use arguments::{Arguments, Known, Misuse, Number, Taken, Text, read_arguments};
pub use failure::{Failure, Message, Place};
pub use folder::{is_folder, join_path, json_files};
pub use in_place::{IN_PLACE, answer_bytes, change, is_last};
pub use input::{read_named, read_text, reading_error, writing_error};
pub use layout::{INDENT, RAW, write_laid_out};
pub use line_run::LineRun;
pub use lines::{AnswerLines, answer_lines};
pub use operands::{named_text_failure, needed_operand, or_report};
pub use program::{
    HELP, MAX_LINE, Program, VERSION, argument_words, arguments_of, misused, report,
};
pub use refusal::{RefusedLine, tell};
pub use replacement::replace;
pub use run::run_tool;
pub use shown::Shown;
pub use status::Status;
pub use texts::{LINES, NoAnswer, Texts, lines_asked, texts_asked, unanswered_failure};
pub use tool::{Input, InputText, Tool, done};
pub use unanswered::{UnansweredLine, tell_unanswered};
pub use values::{ValueTool, Values};
