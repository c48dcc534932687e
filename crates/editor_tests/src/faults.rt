//! Displays that fail at a call, and helpers that fail or run out of memory.

// The record has what the edit did.
const FAILING_DISPLAYS: &str = "
    history: line0,line1 = nothing
    answered: 0 = nothing
    ab|c: Move BackwardChar 1 = Display a|bc /
    ab|: SelfInsert 1 c = Display abc| /
    a|b: SelfInsert 1 c = Display ac|b /
    abc|: Kill BackwardChar 1 = Display ab| /
    a|bc: Kill BackwardChar 1 = Display |bc /
    a|b: Insert 1 xy = Display axy|b /
    a|bc: ReplaceChar 1 x = Display a|xc /
    a|bc: Overwrite x = Display ax|c /
    |bc: Replace ForwardChar 1 with x = Display |c /
    a|b: ClearScreen = Display a|b /
    a|b: Repaint = Display a|b /
    abc|: TransposeChars = Display acb| /
    ab c|: TransposeWords 1 = Display c ab| /
    |ab: UpcaseWord = Display AB| /
    ab|: Indent WholeLine = Display ␠ ab| /
    a|b: Interrupt = Display a|b /
    ab|: PreviousHistory = Display line1| /
    ab|: BeginningOfHistory = Display line0| /
    li|: HistorySearchBackward = Display li|ne1 /
    ab|: HistorySearchBackward = Display ab| /
    ab|: Newline = Display ab␊| /
    a|b: AcceptAtEndOrInsertLine = Display a␊|b /
    ab|: AcceptLine = Submit ab| /
    |ab: Move BackwardChar 1 = |ab /

    a|b: SelfInsert 1 c; Undo 1 = Display a|b /
    abc|: Kill WholeLine; Undo 1 = Display abc| /
    abc|: Kill WholeLine; Yank 1 Before = Display abc| /
    ab|: PreviousHistory; Undo 1 = Display ab| /

    answered: 1 = nothing
    abc|: Kill BackwardChar 1 = Display ab| / move 0,5 to 0,4
    ab|c: Replace ForwardChar 1 with xy = Display ab| / move 0,4 to 0,4
    a|b: ClearScreen = Display a|b / clear screen
    ␠ ab|: Move ViFirstPrint = Display ␠ |ab / move 0,6 to 0,2
    ab|: SelfInsert 1 c = abc| / write 'c'

    answered: 2 = nothing
    ab|c: Replace ForwardChar 1 with xy = Display ab|xy / move 0,4 to 0,4; clear row
    abc|: Kill BackwardChar 1 = ab| / move 0,5 to 0,4; clear row
";

// The group that was begun for it stays open: text typed then is undone step by step, until a later
// group closes it.
const FAILING_HELPERS: &str = "
    history: line0,line1 = nothing
    helper: verdict:Valid hints:taken = nothing
    advised: hint-fails:3 = nothing
    ab|: SelfInsert 1 c = Helper abc| /
    abcd|: Kill BackwardChar 1 = Helper abc| /
    abc|: Repaint = Helper abc| /
    abc|: ClearScreen = Helper abc| / clear screen
    ab|: PreviousHistory = Helper line1| /
    abc|: Move BackwardChar 1 = ab|c / move 0,5 to 0,4
    a|: SelfInsert 1 b = ab| / write 'b'
    abc|: AcceptLine = Submit abc| /

    advised: wants-memory = nothing
    ab|: SelfInsert 1 c = Memory abc| /
    abc|: Repaint = Memory abc| /
    a|: SelfInsert 1 b = ab| / write 'b'

    advised: hint-fails:never = nothing
    advised: verdict-fails:3 = nothing
    abc|: AcceptLine = Memory abc| /
    ab|: AcceptLine = Submit ab| /

    advised: wants-memory:no = nothing
    abc|: AcceptLine = Helper abc| /
    abc|: AcceptOrInsertLine = Helper abc| /
    ab|: AcceptLine = Submit ab| /
    ab|: SelfInsert 1 c = abc| / write 'c'
    abc|: Newline = abc␊| / draw '> abc␊|' at 1,0 to 1,0
    abc|: EndOfFile = abc| /

    abc|: AcceptLine; Undo 1 = abc| /
    abc|: AcceptLine; SelfInsert 1 +; SelfInsert 1 -; Undo 1 = abc+| / draw '> abc+|' at 0,6 to 0,6
    abc|: AcceptLine; SelfInsert 1 +; SelfInsert 1 -; TransposeChars; Undo 1 = abc| / draw '> abc|' at 0,5 to 0,5
    ab|: AcceptLine; SelfInsert 1 +; TransposeChars; Undo 1 = ab+| / draw '> ab+|' at 0,5 to 0,5
";

pub(crate) const TABLES: [&str; 2] = [FAILING_DISPLAYS, FAILING_HELPERS];
