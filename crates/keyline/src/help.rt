//! The text of `--help`.

/// The page of the keys: what each key does, in a few words.
pub(crate) fn keys() -> &'static str {
    "\
More options:
      --extended           Turns on what is off by default; ./keyline gives it on a terminal
      --plain              Leaves --extended out; for ./keyline
      --prove              Proves the program and builds it; for ./keyline, by itself
      --version            Prints the version; by itself

The display is drawn on standard error, for the columns that the program was started with: a
terminal that changes its width while a line is edited is drawn for the old one until the next
start.

Keys in both modes:
  Enter, Ctrl-J           accepts the line
  Ctrl-D                  on an empty line ends the session
  Ctrl-C                  gives the line up and ends the session
  Left, Right, Home, End  move the cursor; Up, Down go through rows and history
  Backspace, Delete       delete before, at the cursor
  Ctrl-W, Ctrl-U          kill the word before the cursor, all before it in its row
  Ctrl-Y                  yanks what was killed
  Tab                     completes the word before the cursor by those of --words
  Ctrl-T                  swaps two characters
  Ctrl-_                  undoes

With --extended, which ./keyline gives on a terminal unless --plain is given:
  Ctrl-R, Ctrl-S          search the history back, forward, for what is typed then
  Ctrl-G                  gives a search up
  Ctrl-V and a key        insert the character that the key sends
  Up after a line's text  goes through the lines of the history that begin with it
  / and ?                 in Vi's command mode search as Ctrl-R and Ctrl-S do
  Tabs in a text          are blanks up to the next stop; stops are 8 columns apart

Emacs mode:
  Ctrl-A, Ctrl-E          to the row's start, end
  Ctrl-B, Ctrl-F          a character back, forward; with Alt a word
  Ctrl-K                  kills to the row's end; Alt-D the next word, Alt-Backspace the last
  Alt-Y                   after a yank: an older killed text
  Alt-T                   swaps two words; Alt-C, Alt-L, Alt-U change a word's case
  Ctrl-P, Ctrl-N          the previous, next line of the history; Alt-<, Alt-> the first, last
  Ctrl-L                  clears the screen
  Ctrl-] and a character  to before the next such character; with Alt back to one
  Alt-0 to Alt-9, Alt--   a count for the next key

Vi mode, in which Esc acts when the next byte comes:
  Esc                     from insert mode to command mode
  h l 0 ^ $ w b e W B E   move; f F t T and a character, ; and , search in the line
  i I a A                 insert mode; R replace mode
  x X D C S s r           delete and change; d c y < > and a range work on it
  p P                     yank; u undoes; . makes the last change again
  j k + -                 rows and history
  1 to 9                  a count for the next key
"
}
