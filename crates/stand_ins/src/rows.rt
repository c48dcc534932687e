//! The rows of a table, one after the other.

use crate::tables::{call_and_answer, or_nothing};
use std::alloc::Global;
use std::test::Fail;

/// Makes the call of a row.
pub trait Player {
    /// Makes the call, and returns its answer.
    fn play(&mut self, alloc: Global, call: &str) -> Result<String, Fail>;
}

/// Makes each row's call, and compares its answer. `nothing` stands for an empty text or no answer.
pub fn rows_hold<P: Player>(alloc: Global, player: &mut P, table: &str) -> Result<(), Fail> {
    for row in table.lines() {
        if let Some((call, wanted)) = call_and_answer(row) {
            let said = player.play(alloc, call)?;
            answers(row, said.as_str(), wanted)?;
        }
    }
    Ok(())
}

fn answers(row: &str, said: &str, wanted: &str) -> Result<(), Fail> {
    if or_nothing(said) == or_nothing(wanted) {
        Ok(())
    } else {
        Err(Fail::new(format_args!("{row}, but it answers {said}")))
    }
}

/// Makes the calls of each table by its own player, as `rows_hold` does.
pub fn each_holds<P: Player + Copy>(alloc: Global, tables: &[(P, &str)]) -> Result<(), Fail> {
    for (player, table) in tables {
        let mut player = *player;
        rows_hold(alloc, &mut player, table)?;
    }
    Ok(())
}

/// A player that starts anew for each table.
pub trait Starts: Player {
    fn start(alloc: Global) -> Result<Self, Fail>;
}

fn table_holds<P: Starts + Drop>(alloc: Global, table: &str) -> Result<(), Fail> {
    let mut player = P::start(alloc)?;
    rows_hold(alloc, &mut player, table)
}

/// Makes the calls of each table, from a start of its own.
pub fn tables_hold<P: Starts + Drop>(alloc: Global, tables: &[&str]) -> Result<(), Fail> {
    for table in tables {
        table_holds::<P>(alloc, table)?;
    }
    Ok(())
}

/// What a test fails with at a row that it can't read: `no call: ab`.
pub fn misread(what: &str, row: &str) -> Fail {
    Fail::new(format_args!("{what}: {row}"))
}

/// A text without the blanks at its ends.
pub fn trimmed(alloc: Global, text: &str) -> Result<String, Fail> {
    raised(String::from_str(alloc, text.trim()))
}

/// Fails if a text isn't the expected one.
pub fn same(found: &str, wanted: &str) -> Result<(), Fail> {
    if found == wanted {
        Ok(())
    } else {
        Err(Fail::new(format_args!("it is {found}, and not {wanted}")))
    }
}

/// Fails with these words if a fact doesn't hold. As a test's `assert!` it costs half of that.
pub fn stands(holds: bool, wrong: &'static str) -> Result<(), Fail> {
    if holds { Ok(()) } else { Err(Fail::new(wrong)) }
}

/// An answer, its error converted to the caller's like `?` does. As a last call this costs the
/// prover half of `Ok(call()?)`.
pub fn raised<T, E, F: From<E>>(answer: Result<T, E>) -> Result<T, F> {
    match answer {
        Ok(value) => Ok(value),
        Err(why) => Err(F::from(why)),
    }
}

/// The same without the answer's value.
pub fn done<T: Drop, E, F: From<E>>(answer: Result<T, E>) -> Result<(), F> {
    match answer {
        Ok(_) => Ok(()),
        Err(why) => Err(F::from(why)),
    }
}
