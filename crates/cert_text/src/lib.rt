//! The lines of certificates: their one text, and a reader that takes the bytes of a certificate in any pieces.
//!
//! But for want of memory, `line_text` answers the one spelling of a line. A `CertReader` is fed the bytes of a
//! certificate piece by piece. What it kept, followed by a piece, is the text of the lines that it answers, followed
//! by what it keeps then; so its answers do not depend on the cuts. It names the first line that is of no kind or
//! holds a number over 4294967295, or that the bytes go past its limit; the good lines before that are answered first.
//! Which line may stand where, and what a certificate shows, is not looked at here.
//!
//! | file | what it does |
//! |---|---|
//! | `line.rt` | the lines, and why a reader stops |
//! | `keyword.rt` | the words with which lines begin |
//! | `words.rt` | takes words and numbers from the front of a line |
//! | `kinds.rt` | reads the line of each kind |
//! | `reading.rt` | reads a line of any kind |
//! | `reader.rt` | cuts the pieces of a stream into lines |
//! | `pushes.rt` | appends words |
//! | `writing.rt` | writes the line of each kind |
//! | `laws.rt` | one text has one line, and one stream has the same lines, however it is cut |
//!
//! The definitions that contracts cite are in `specs/`: `Lines.antt`, `Values.antt`, `Streams.antt`.

#![tactic(auto)]

mod keyword;
mod kinds;
mod laws;
mod line;
mod pushes;
mod reader;
mod reading;
mod words;
mod writing;

pub use laws::{any_pieces, one_answer, one_spelling};
pub use line::{CertLine, LineFault, Truncated};
pub use reader::CertReader;
pub use writing::line_text;
