//! The promises of `line_buffer` at work: where motions go, what columns texts have, and insertions
//! into lines that can't grow. Its other edits are rows of `crates/sessions_program`.

mod arguments;
mod columns;
mod edits;
mod motions;
mod table;

use stand_ins::rows::tables_hold;
use std::test::Fail;
use table::Desk;

#[test]
fn motions_of_lines(rt: HostRuntime) -> Result<(), Fail> {
    tables_hold::<Desk>(rt.alloc(), &motions::TABLES)?;
    tables_hold::<Desk>(rt.alloc(), &columns::TABLES)
}
