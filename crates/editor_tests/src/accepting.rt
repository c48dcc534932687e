//! Accepted lines, accepted hints, and commands that draw or do nothing.

const ENDS: &str = "
    |: AcceptLine = Submit | /
    ab|: AcceptLine = Submit ab| /
    a|b: AcceptLine = Submit a|b /
    a|b: AcceptOrInsertLine = Submit a|b /
    ab|: AcceptAtEndOrInsertLine = Submit ab| /
    a|␠: AcceptAtEndOrInsertLine = Submit a|  /
    a|b: AcceptAtEndOrInsertLine = a␊|b / draw '> a␊|b' at 1,0 to 1,1
    |: EndOfFile = Eof | /
    ab|: EndOfFile = ab| /
    a|b: Interrupt = Interrupted a|b / move 0,3 to 0,4
    ab|: Interrupt = Interrupted ab| /
    a|b␊cd: Interrupt = Interrupted a|b␊cd / move 0,3 to 1,2

    a|b: Abort = a|b /
    a|b: Complete = a|b /
    a|b: CompleteBackward = a|b /
    a|b: CompleteHint = a|b /
    a|b: ForwardSearchHistory = a|b /
    a|b: Noop = a|b /
    a|b: QuotedInsert = a|b /
    a|b: ReverseSearchHistory = a|b /
    a|b: SearchAgain Same = a|b /
    a|b: SearchAgain Opposite = a|b /
    a|b: Suspend = a|b /
    a|b: Unknown = a|b /

    a|b: ClearScreen = a|b / clear screen; draw '> a|b' at 0,3 to 0,4
    ab␊c|d: ClearScreen = ab␊c|d / clear screen; draw '> ab␊c|d' at 1,1 to 1,2
    ab␊c|d: Repaint = ab␊c|d / draw '> ab␊c|d' at 1,1 to 1,2 below 1
    |: Repaint = | / draw '> |' at 0,2 to 0,2
    |: ClearScreen = | / clear screen; draw '> |' at 0,2 to 0,2

    mode: Vi = nothing
    |: EndOfFile = Eof | /
    ab|: EndOfFile = Submit ab| /
";

const VERDICTS: &str = "
    helper: verdict:Valid hints:taken = nothing
    ab|: AcceptLine = Submit ab| /
    a|b: AcceptOrInsertLine = Submit a|b /
    a|b: AcceptAtEndOrInsertLine = a␊|b / draw '> a␊|b' at 1,0 to 1,1
    ab|: EndOfFile = ab| /
    ab|: Newline = ab␊| / draw '> ab␊|' at 1,0 to 1,0

    helper: verdict:ValidTold message:ok hints:taken = nothing
    ab|: AcceptLine = Submit ab| / draw '> ab|{ok}' at 0,4 to 0,6
    a|b: AcceptOrInsertLine = Submit a|b / draw '> a|b{ok}' at 0,3 to 0,6
    a|b: AcceptAtEndOrInsertLine = a␊|b / draw '> a|b{ok}' at 0,3 to 0,6; draw '> a␊|b' at 1,0 to 1,1

    helper: verdict:Invalid hints:taken = nothing
    ab|: AcceptLine = Submit ab| /
    ab|: AcceptOrInsertLine = ab␊| / draw '> ab␊|' at 1,0 to 1,0
    a|b: AcceptAtEndOrInsertLine = a␊|b / draw '> a␊|b' at 1,0 to 1,1

    helper: verdict:Incomplete hints:taken = nothing
    ab|: AcceptLine = Submit ab| /
    ab|: AcceptOrInsertLine = ab␊| / draw '> ab␊|' at 1,0 to 1,0
    a|b: AcceptAtEndOrInsertLine = a␊|b / draw '> a␊|b' at 1,0 to 1,1

    helper: verdict:InvalidTold message:no hints:taken = nothing
    ab|: AcceptLine = Submit ab| / draw '> ab|{no}' at 0,4 to 0,6
    ab|: AcceptOrInsertLine = ab| / draw '> ab|{no}' at 0,4 to 0,6
    ab|: AcceptOrInsertLine; AcceptOrInsertLine = ab| / draw '> ab|{no}' at 0,4 to 0,6
    ab|: AcceptOrInsertLine; Move BackwardChar 1 = a|b / move 0,4 to 0,3
    ab|: AcceptOrInsertLine; SelfInsert 1 c = abc| / draw '> abc|' at 0,5 to 0,5
    ab|: AcceptOrInsertLine; Kill BackwardChar 1 = a| / draw '> a|' at 0,3 to 0,3

    helper: verdict:InvalidTold hints:taken = nothing
    ab|: AcceptOrInsertLine = ab| / draw '> ab|{}' at 0,4 to 0,4
    ab|: AcceptOrInsertLine; SelfInsert 1 c = abc| / draw '> abc|' at 0,5 to 0,5
    ab|: AcceptOrInsertLine; SelfInsert 1 c; SelfInsert 1 d = abcd| / write 'd'
";

const HINTS: &str = "
    history: abcd = nothing
    helper: verdict:Valid hints:taken = nothing
    ab|: Repaint; AcceptLine = Submit ab| / draw '> ab|' at 0,4 to 0,4
    ab|: Repaint; AcceptOrInsertLine = Submit ab| / draw '> ab|' at 0,4 to 0,4
    ab|: Repaint; Move BackwardChar 1; AcceptAtEndOrInsertLine = a␊|b / draw '> a|b' at 0,3 to 0,4; draw '> a␊|b' at 1,0 to 1,1
    ab|: Repaint; EndOfFile = ab| / draw '> ab|' at 0,4 to 0,4
    ab|: Repaint; EndOfFile; AcceptLine = Submit ab| /
    ab|: Repaint; Interrupt = Interrupted ab| / move 0,4 to 0,6
    ab|: Repaint; CompleteHint = abcd| / draw '> abcd|' at 0,6 to 0,6
    ab|: Repaint; Move BackwardChar 1; CompleteHint = abcd| / draw '> abcd|' at 0,6 to 0,6
    ab|: CompleteHint = ab| /
    xy|: Repaint; CompleteHint = xy| /
    ab|: Repaint; Unknown = ab| /
    ab|: Repaint; ClearScreen = ab| / clear screen; draw '> ab|{cd}' at 0,4 to 0,6
    ab|: Repaint; Undo 1 = ab| /

    ab|: Repaint; CompleteHint; Undo 1 = ab| / draw '> ab|{cd}' at 0,4 to 0,6

    advised: hints:shown = nothing
    ab|: Repaint; CompleteHint = ab| / beep; draw '> ab|{cd}' at 0,4 to 0,6
    ab|: CompleteHint = ab| /
";

const HIGHLIGHTS: &str = "
    colours: yes = nothing
    helper: verdict:Valid hints:taken = nothing
    advised: marked:2 = nothing
    ab|: AcceptLine = Submit ab| / draw '> ab|' at 0,4 to 0,4 lit marked
    a|b: AcceptLine = Submit a|b /
    ab|: Repaint; Move BackwardChar 1 = a|b / draw '> a|b' at 0,3 to 0,4 lit
    ab|: Repaint; Move BackwardChar 1; AcceptLine = Submit a|b /
    ab|: Repaint = ab| / draw '> ab|' at 0,4 to 0,4 lit marked

    history: abcd = nothing
    ab|: Repaint = ab| / draw '> ab|{cd}' at 0,4 to 0,6 lit marked
    abc|: Repaint = abc| / draw '> abc|{d}' at 0,5 to 0,6 lit

    helper: verdict:InvalidTold message:no hints:taken = nothing
    ab|: AcceptOrInsertLine = ab| / draw '> ab|{no}' at 0,4 to 0,6 lit told
    advised: marked:2 = nothing
    ab|: AcceptOrInsertLine = ab| / draw '> ab|' at 0,4 to 0,4 lit marked; draw '> ab|{no}' at 0,4 to 0,6 lit marked told
";

pub(crate) const TABLES: [&str; 4] = [ENDS, VERDICTS, HINTS, HIGHLIGHTS];
