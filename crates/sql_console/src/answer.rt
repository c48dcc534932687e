//! What a statement gives.

use crate::{mistake, table};
use sqlite::{Connection, Error, MemStore, Row, Statement};
use sqlite_value::value::ValueRef;
use std::alloc::{AllocError, Global};
use std::io;

/// The names of the tables; none if they can't be read.
pub(crate) fn tables(alloc: Global, conn: &mut Connection<MemStore>) -> Vec<String> {
    let mut names = Vec::new(alloc);
    if add_tables(conn, &mut names).is_err() {
        names.clear();
    }
    names
}

fn add_tables(conn: &mut Connection<MemStore>, names: &mut Vec<String>) -> Result<(), Error> {
    for row in &conn.query_all("SELECT name FROM sqlite_schema WHERE type = 'table'", &[])? {
        names.push(row.get(0)?)?;
    }
    Ok(())
}

/// Prints the names of the tables, one in a row.
pub(crate) fn print_tables(rt: &HostRuntime, conn: &mut Connection<MemStore>) -> io::Result<()> {
    for name in tables(rt.alloc(), conn).iter() {
        println!(rt; "{name}")?;
    }
    Ok(())
}

/// Runs a statement and prints its rows, how many it changed, or why it failed.
pub(crate) fn print(
    rt: &HostRuntime,
    conn: &mut Connection<MemStore>,
    sql: &str,
) -> io::Result<()> {
    match run(rt.alloc(), conn, sql) {
        Ok(Answer::Rows(rows)) => table::print(rt, rows.as_slice()),
        Ok(Answer::Changed(rows)) => println!(rt; "{rows} changed"),
        Err(error) => mistake::print(rt, sql, &error),
    }
}

#[derive(Drop)]
enum Answer {
    /// The names of the columns, and then the rows.
    Rows(Vec<Vec<String>>),
    /// The number of rows that were changed.
    Changed(usize),
}

fn run(alloc: Global, conn: &mut Connection<MemStore>, sql: &str) -> Result<Answer, Error> {
    let statement = conn.prepare(sql)?;
    answer_of(alloc, conn, &statement)
}

fn answer_of(
    alloc: Global,
    conn: &mut Connection<MemStore>,
    statement: &Statement,
) -> Result<Answer, Error> {
    if statement.column_count() == 0 {
        return Ok(Answer::Changed(statement.execute(conn, &[])?));
    }
    let mut rows = Vec::new(alloc);
    add_rows(alloc, conn, statement, &mut rows)?;
    Ok(Answer::Rows(rows))
}

/// Adds the names of the columns, and then the rows.
fn add_rows(
    alloc: Global,
    conn: &mut Connection<MemStore>,
    statement: &Statement,
    rows: &mut Vec<Vec<String>>,
) -> Result<(), Error> {
    rows.push(head_of(alloc, statement)?)?;
    for row in &statement.query_all(conn, &[])? {
        rows.push(cells_of(alloc, row)?)?;
    }
    Ok(())
}

fn head_of(alloc: Global, statement: &Statement) -> Result<Vec<String>, AllocError> {
    let mut head = Vec::new(alloc);
    for name in statement.column_names() {
        head.push(text_of(alloc, name.as_slice())?)?;
    }
    Ok(head)
}

fn cells_of(alloc: Global, row: &Row) -> Result<Vec<String>, Error> {
    let mut cells = Vec::new(alloc);
    for at in 0..row.column_count() {
        cells.push(cell_of(alloc, row.get_ref(at)?)?)?;
    }
    Ok(cells)
}

fn cell_of(alloc: Global, value: ValueRef<'_>) -> Result<String, AllocError> {
    match value {
        ValueRef::Null => String::from_str(alloc, "NULL"),
        ValueRef::Int(number) => format!(in alloc; "{number}"),
        ValueRef::Real(number) => format!(in alloc; "{number}"),
        ValueRef::Text(text) | ValueRef::Blob(text) => text_of(alloc, text),
    }
}

/// The text that these bytes are, or how many they are.
fn text_of(alloc: Global, bytes: &[u8]) -> Result<String, AllocError> {
    match str::from_utf8(bytes) {
        Ok(text) => String::from_str(alloc, text),
        Err(_) => format!(in alloc; "({} bytes)", bytes.len()),
    }
}
