//! The lines of a source, one after the other, in whatever pieces it gives its bytes; and sessions, in which each line
//! is answered on a sink before the next is pulled.

mod line_end;
mod reader;
mod talking;

pub use crate::lines::line_end::line_len;
pub use crate::lines::reader::{INPUT_LIMIT, LINE_LIMIT, LineError, LineReader, Next};
pub use crate::lines::talking::{Answers, TalkError, talk};
