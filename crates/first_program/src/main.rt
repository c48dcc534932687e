//! A first program: it says each line again, until Ctrl-D or the end of the input.
#![tactic(auto)]

use keyline::{LineEditor, ReadlineError, StandardEditor, standard_builder};

fn main(rt: HostRuntime) -> Result<(), ReadlineError> {
    let mut editor = LineEditor::new(standard_builder(&rt).open()?);
    say_again(&rt, &mut editor)
}

fn say_again(rt: &HostRuntime, editor: &mut StandardEditor<()>) -> Result<(), ReadlineError> {
    for _ in 0..u64::MAX {
        match editor.read_line("> ") {
            Ok(line) => println!(rt; "{line}").map_err(|_| ReadlineError::Lines)?,
            Err(ReadlineError::Eof) => break,
            Err(why) => return Err(why),
        }
    }
    Ok(())
}
