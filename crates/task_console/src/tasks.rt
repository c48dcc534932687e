//! The tasks, and what a command does with them.

use keyline::ReadlineError;
use std::alloc::AllocError;
use std::io;

/// Carries out a command, and prints what it answers.
pub(crate) fn answer(
    rt: &HostRuntime,
    tasks: &mut Vec<String>,
    line: &str,
) -> Result<(), ReadlineError> {
    let (command, rest) = line.split_once(' ').unwrap_or((line, ""));
    let printed = match command {
        "add" => {
            add(rt, tasks, rest)?;
            println!(rt; "{} to do", tasks.len())
        }
        "list" => list(rt, tasks.as_slice()),
        "done" => done(rt, tasks, rest),
        _ => println!(rt; "add TEXT, list, done NUMBER, quit"),
    };
    printed.map_err(|_| ReadlineError::Lines)
}

fn add(rt: &HostRuntime, tasks: &mut Vec<String>, text: &str) -> Result<(), AllocError> {
    tasks.push(String::from_str(rt.alloc(), text)?)?;
    Ok(())
}

fn list(rt: &HostRuntime, tasks: &[String]) -> io::Result<()> {
    for (at, task) in tasks.iter().enumerate() {
        println!(rt; "{}. {task}", at + 1)?;
    }
    Ok(())
}

/// Removes the task of a number that `list` shows.
fn done(rt: &HostRuntime, tasks: &mut Vec<String>, number: &str) -> io::Result<()> {
    match number.parse::<usize>() {
        Ok(number) if 0 < number && number <= tasks.len() => {
            println!(rt; "done: {}", tasks.remove(number - 1))
        }
        _ => println!(rt; "there is no such task"),
    }
}
