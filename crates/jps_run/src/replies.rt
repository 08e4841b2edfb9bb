//! Who answers queries and edits on a map, as the settings ask, and what is printed of it.
//!
//! An answer is right, and is come to as the one who answers does. On a map that stays as it is a session
//! answers by its engine, or on a small map goal boxes or first moves do; a call opens them from its files.
//! Printed are the lines that answer commands, those of a script that comes in before the next is read, what
//! they come to in one line of sums, a picture of one query, and the rows that judge a scenario or what
//! another program tells of it.

mod answerer;
mod answers;
mod case;
mod drawing;
mod findings;
mod hearing;
mod judge;
mod opening;
mod row;
mod ruling;
mod scenario;
mod serving;
mod session;
mod small;

pub use answerer::{Answerer, Basis, BoxLibrary, MoveLibrary};
pub use answers::{Answers, write_answers};
pub use case::{Case, read_case};
pub use drawing::{Canvas, write_drawing};
pub use findings::{Finding, Summary, Sums, write_sums};
pub use hearing::hear;
pub use judge::{Judge, write_rulings};
pub use opening::{open_answers, open_basis};
pub use row::{Row, Tally};
pub use ruling::{Counts, Ruling};
pub use scenario::{Scen, write_rows};
pub use serving::serve_lines;
pub use session::session_on;
pub use small::small_reply;
