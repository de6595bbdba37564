//! The text of a certificate: how each line is formatted and read, the order of lines, the reader that takes lines from
//! bytes in pieces, and the writer of a network's certificate, part by part.
#![tactic(auto)]

mod event;
mod fast;
mod flows;
mod head;
mod line;
mod number;
mod place;
mod reader;
mod reading;
mod segment;
mod words;
mod writing;

pub use event::{EVENT_NAMED, EventFront, EventSaid};
pub use fast::{KnownLine, LineText, WIDTH};
pub use flows::{Flows, MAX_FLOWS};
pub use head::{put_head, version};
pub use line::{CertLine, MAX_LINE, spelling_is_once, text_is_once};
pub use number::MAX_DIGITS;
pub use place::{Place, Shape};
pub use reader::{CertReader, Fed, Malformed};
pub use segment::{put_ends, put_segment};
pub use writing::{put_end, write_end, write_head, write_segment};
