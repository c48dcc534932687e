//! Says each line again until Ctrl-D, and keeps the lines in a file, which is its argument or
//! `lines.history`: each one is there before the next is read, and at the next start Up goes back
//! to it. Ctrl-C begins a new line.
#![tactic(auto)]

use anyhow::{Context, Result, bail};
use keyline::{
    Ending, LineEditor, ReadlineError, SliceSource, StandardEditor, VecSink, standard_builder,
};
use keyline_files::{HistoryFile, load_history_lossy};
use std::env;

/// An editor whose history is kept.
type Editor = StandardEditor<(), VecSink>;

fn main(rt: HostRuntime) -> Result<()> {
    let arguments: Vec<String> = env::args(&rt)?.collect(rt.alloc())?;
    let path = match arguments.get(1) {
        Some(path) => path.as_str(),
        None => "lines.history",
    };
    let old = load_history_lossy(&rt, path).context("the history does not load")?;
    let session = standard_builder(&rt)
        .history(SliceSource::new(&old), VecSink::new(rt.alloc()))
        .open()
        .map_err(|unopened| unopened.why)?;
    let mut editor = LineEditor::new(session);
    say_again(&rt, &mut editor, &mut HistoryFile::new(&rt, path))?;
    match editor.finish().ending {
        Ending::Eof => Ok(()),
        ending => bail!("{}", ending.text()),
    }
}

/// Says each line again until no further one comes, which `finish` tells the reason of.
fn say_again(rt: &HostRuntime, editor: &mut Editor, file: &mut HistoryFile<'_>) -> Result<()> {
    for _ in 0..u64::MAX {
        match editor.read_line("> ") {
            Ok(line) => {
                println!(rt; "{line}")?;
                file.add(&editor.take_new_rows()?)?;
                file.append().context("the history is not saved")?;
            }
            Err(ReadlineError::Interrupted) => {}
            Err(_) => break,
        }
    }
    Ok(())
}
