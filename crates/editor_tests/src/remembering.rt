//! History entries in place of the line.

const STEPS: &str = "
    history: line0,line1 = nothing
    cur|: PreviousHistory = line1| / draw '> line1|' at 0,7 to 0,7
    cur|: PreviousHistory; PreviousHistory = line0| / draw '> line0|' at 0,7 to 0,7
    cur|: PreviousHistory; PreviousHistory; PreviousHistory = line0| /
    cur|: PreviousHistory; PreviousHistory; NextHistory = line1| / draw '> line1|' at 0,7 to 0,7
    cu|r: PreviousHistory; NextHistory = cu|r / draw '> cu|r' at 0,4 to 0,5
    cu|r: PreviousHistory; NextHistory; NextHistory = cu|r /
    cu|r: PreviousHistory; SelfInsert 1 x; NextHistory = cu|r / draw '> cu|r' at 0,4 to 0,5
    cu|r: PreviousHistory; SelfInsert 1 x; PreviousHistory; NextHistory = line1| / draw '> line1|' at 0,7 to 0,7
    cur|: NextHistory = cur| /
    |: PreviousHistory; NextHistory = | / draw '> |' at 0,2 to 0,2
    cu|r: BeginningOfHistory = line0| / draw '> line0|' at 0,7 to 0,7
    cu|r: BeginningOfHistory; BeginningOfHistory = line0| /
    cu|r: BeginningOfHistory; EndOfHistory = cu|r / draw '> cu|r' at 0,4 to 0,5
    cu|r: PreviousHistory; BeginningOfHistory; EndOfHistory = cu|r / draw '> cu|r' at 0,4 to 0,5
    cu|r: EndOfHistory = cu|r /
    a␊b|: PreviousHistory = line1| / draw '> line1|' at 0,7 to 0,7 below 1

    cur|: LineUpOrPreviousHistory 1 = line1| / draw '> line1|' at 0,7 to 0,7
    cur|: LineUpOrPreviousHistory 9 = line1| / draw '> line1|' at 0,7 to 0,7
    cur|: LineDownOrNextHistory 1 = cur| /
    cu|r: LineUpOrPreviousHistory 1; LineDownOrNextHistory 1 = cu|r / draw '> cu|r' at 0,4 to 0,5
    abc␊wxyz|: LineUpOrPreviousHistory 1 = ab|c␊wxyz / move 1,4 to 0,4
    abc␊wxyz|: LineUpOrPreviousHistory 9 = ab|c␊wxyz / move 1,4 to 0,4
    ab|c␊wxyz: LineDownOrNextHistory 1 = abc␊wxyz| / move 0,4 to 1,4
    abc␊wxyz|: LineDownOrNextHistory 1 = abc␊wxyz| /
    ab␊cd|: LineUpOrPreviousHistory 0 = line1| / draw '> line1|' at 0,7 to 0,7 below 1

    cur|: PreviousHistory; Undo 1 = cur| / draw '> cur|' at 0,5 to 0,5
    cu|r: PreviousHistory; Undo 1 = cur| / draw '> cur|' at 0,5 to 0,5
    cu|r: PreviousHistory; PreviousHistory; Undo 1 = line1| / draw '> line1|' at 0,7 to 0,7
    cu|r: PreviousHistory; NextHistory; Undo 1 = | / draw '> |' at 0,2 to 0,2
    cu|r: BeginningOfHistory; Undo 1 = cur| / draw '> cur|' at 0,5 to 0,5
";

// A search that finds nothing still moves the place, and no search saves the line; at the history's
// end the next step back does.
const SEARCHES: &str = "
    |: HistorySearchBackward = | / beep
    ab|: HistorySearchForward = ab| / beep
    ab|: PreviousHistory = ab| /
    ab|: NextHistory = ab| /
    ab|: BeginningOfHistory = ab| /
    ab|: EndOfHistory = ab| /
    ab|: LineUpOrPreviousHistory 1 = ab| /

    history: line0,line1,xy = nothing
    li|: HistorySearchBackward = li|ne1 / draw '> li|ne1' at 0,4 to 0,7
    li|x: HistorySearchBackward = li|ne1 / draw '> li|ne1' at 0,4 to 0,7
    li|: HistorySearchBackward; HistorySearchBackward = li|ne0 / draw '> li|ne0' at 0,4 to 0,7
    li|: HistorySearchBackward; HistorySearchBackward; HistorySearchBackward = li|ne0 / beep
    li|: HistorySearchBackward; HistorySearchBackward; HistorySearchForward = li|ne1 / draw '> li|ne1' at 0,4 to 0,7
    li|: HistorySearchForward = li| / beep
    lix|: HistorySearchBackward = lix| / beep
    |: HistorySearchBackward = | / beep
    lix|: HistorySearchBackward; PreviousHistory = line1| / draw '> line1|' at 0,7 to 0,7
    lix|: HistorySearchBackward; NextHistory = | / draw '> |' at 0,2 to 0,2

    li|: HistorySearchBackward; HistorySearchForward = li|ne1 / beep
    li|: HistorySearchBackward; HistorySearchForward; HistorySearchForward = li|ne1 / beep
    li|: HistorySearchBackward; HistorySearchForward; HistorySearchForward; PreviousHistory = xy| / draw '> xy|' at 0,4 to 0,4
    li|: HistorySearchBackward; HistorySearchForward; HistorySearchForward; PreviousHistory; NextHistory = li|ne1 / draw '> li|ne1' at 0,4 to 0,7

    li|: HistorySearchBackward; Undo 1 = li| / draw '> li|' at 0,4 to 0,4
    lix|: HistorySearchBackward; Undo 1 = lix| /
";

pub(crate) const TABLES: [&str; 2] = [STEPS, SEARCHES];
