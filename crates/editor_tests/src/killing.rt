//! Kills, and copies into the ring.

const DRAWN: &str = "
    |: Kill BackwardChar 1 = | /
    |: Kill ForwardChar 1 = | /
    |: Kill EndOfLine = | /
    |: Kill BeginningOfLine = | /
    |: Kill WholeLine = | /
    |: Kill WholeBuffer = | /
    abc|: Kill BackwardChar 1 = ab| / move 0,5 to 0,4; clear row
    abc|: Kill BackwardChar 2 = a| / move 0,5 to 0,3; clear row
    abc|: Kill BackwardChar 99 = | / move 0,5 to 0,2; clear row
    abc|: Kill BackwardChar 0 = abc| /
    |abc: Kill BackwardChar 1 = |abc /
    ab|c: Kill BackwardChar 1 = a|c / draw '> a|c' at 0,3 to 0,4
    ab|c: Kill ForwardChar 1 = ab| / move 0,4 to 0,4; clear row
    |abc: Kill ForwardChar 1 = |bc / draw '> |bc' at 0,2 to 0,4
    |abc: Kill ForwardChar 9 = | / move 0,2 to 0,2; clear row
    abc|: Kill ForwardChar 1 = abc| /
    a|bc: Kill EndOfLine = a| / move 0,3 to 0,3; clear row
    abc|: Kill EndOfLine = abc| /
    a|bc: Kill BeginningOfLine = |bc / draw '> |bc' at 0,2 to 0,4
    abc|: Kill BeginningOfLine = | / move 0,5 to 0,2; clear row
    |abc: Kill BeginningOfLine = |abc /
    a|bc: Kill WholeLine = | / move 0,3 to 0,2; clear row
    a|bc: Kill WholeBuffer = | / move 0,3 to 0,2; clear row
    one two|: Kill BackwardWord 1 Emacs = one | / move 0,9 to 0,6; clear row
    |one two: Kill ForwardWord 1 AfterEnd Emacs = | two / draw '> | two' at 0,2 to 0,6
    |abcabc: Kill ViCharSearch 1 Forward c = |abc / draw '> |abc' at 0,2 to 0,5
    |abcabc: Kill ViCharSearch 1 ForwardBefore c = |cabc / draw '> |cabc' at 0,2 to 0,6
    abcabc|: Kill ViCharSearch 1 Backward b = abca| / move 0,8 to 0,6; clear row
    abcabc|: Kill ViCharSearch 1 BackwardAfter b = abcab| / move 0,8 to 0,7; clear row
    ab|: Kill ViCharSearch 1 BackwardAfter b = ab| / move 0,4 to 0,4; clear row
    abc|: Kill ViCharSearch 1 Backward x = abc| /
    ab|: Kill ViFirstPrint = ab| /
    aé|: Kill BackwardChar 1 = a| / draw '> a|' at 0,3 to 0,3
    éx|: Kill BackwardChar 1 = é| / draw '> é|' at 0,3 to 0,3
    漢字|: Kill BackwardChar 1 = 漢| / draw '> 漢|' at 0,4 to 0,4
    e\u{301}|: Kill BackwardChar 1 = | / draw '> |' at 0,2 to 0,2
    a|bc: ViYankTo EndOfLine = a|bc /

    ab␊cd|: Kill BackwardChar 1 = ab␊c| / move 1,2 to 1,1; clear row
    ab␊cd|: Kill BeginningOfLine = ab␊| / move 1,2 to 1,0; clear row
    ab␊|: Kill BackwardChar 1 = ab| / draw '> ab|' at 0,4 to 0,4 below 1
    ab|␊cd: Kill EndOfLine = ab|cd / draw '> ab|cd' at 0,4 to 0,6
    a|b␊cd: Kill EndOfLine = a|␊cd / draw '> a|␊cd' at 0,3 to 1,2
    ab␊|cd: Kill BeginningOfLine = ab|cd / draw '> ab|cd' at 0,4 to 0,6 below 1
    ab␊c|d␊ef: Kill LineUp 1 = |ef / draw '> |ef' at 0,2 to 0,4 below 1
    a|b␊cd␊ef: Kill LineDown 1 = |ef / draw '> |ef' at 0,2 to 0,4
    ab␊cd␊e|f: Kill LineUp 1 = ab␊| / draw '> ab␊|' at 1,0 to 1,0 below 2
    ab␊c|d: Kill LineDown 1 = ab␊c|d /
    a|b␊cd: Kill LineUp 1 = a|b␊cd /
    ab␊c|d: Kill WholeLine = ab␊| / move 1,1 to 1,0; clear row
    ab␊c|d: Kill WholeBuffer = | / draw '> |' at 0,2 to 0,2 below 1
    ab␊c|d: Kill BeginningOfBuffer = |d / draw '> |d' at 0,2 to 0,3 below 1
    ab␊c|d: Kill EndOfBuffer = ab␊c| / move 1,1 to 1,1; clear row

    ab|c: Replace ForwardChar 1 with xy = ab|xy / move 0,4 to 0,4; clear row; draw '> ab|xy' at 0,4 to 0,6
    ab|c: Replace ForwardChar 1 = ab| / move 0,4 to 0,4; clear row
    |abc: Replace ForwardChar 1 with x = |xbc / draw '> |bc' at 0,2 to 0,4; draw '> |xbc' at 0,2 to 0,5
    |: Replace WholeLine with x = |x / draw '> |x' at 0,2 to 0,3
    abc|: Replace EndOfLine = abc| /

    columns: 10 = nothing
    abcdefghij|: Kill BackwardChar 1 = abcdefghi| / move 1,2 to 1,1; clear row
    abcdefghij|: Kill BackwardChar 2 = abcdefgh| / move 1,2 to 1,0; clear row
    abcdefghij|: Kill BackwardChar 3 = abcdefg| / draw '> abcdefg|' at 0,9 to 0,9 below 1
    abcd|efghij: Kill EndOfLine = abcd| / draw '> abcd|' at 0,6 to 0,6
    abcdefgh|ij: Kill EndOfLine = abcdefgh| / move 1,0 to 1,0; clear row
";

const KEPT: &str = "
    abc|: Kill BackwardChar 1; Undo 1 = abc| / draw '> abc|' at 0,5 to 0,5
    abc|: Kill BackwardChar 1; Yank 1 Before = ab| /
    a|bc: Kill ForwardChar 1; Undo 1 = ab|c / draw '> ab|c' at 0,4 to 0,5
    a|bc: Kill ForwardChar 1; Yank 1 Before = a|c /
    a|bc: Kill EndOfLine; Undo 1 = abc| / draw '> abc|' at 0,5 to 0,5
    a|bc: Kill EndOfLine; Yank 1 Before = abc| / draw '> abc|' at 0,5 to 0,5
    ab|c: Kill BeginningOfLine; Undo 1 = ab|c / draw '> ab|c' at 0,4 to 0,5
    ab|c: Kill BeginningOfLine; Yank 1 Before = ab|c / draw '> ab|c' at 0,4 to 0,5
    a|bc: Kill WholeLine; Undo 1 = abc| / draw '> abc|' at 0,5 to 0,5
    a|bc: Kill WholeLine; Yank 1 Before = abc| / draw '> abc|' at 0,5 to 0,5
    abc|: Kill EndOfLine; Undo 1 = abc| /
    abc|: Kill EndOfLine; Yank 1 Before = abc| /
    one two|: Kill BackwardWord 1 Emacs; Undo 1 = one two| / draw '> one two|' at 0,9 to 0,9
    one two|: Kill BackwardWord 1 Emacs; Yank 1 Before = one two| / draw '> one two|' at 0,9 to 0,9
    one two|: Kill BackwardWord 1 Emacs; Kill BackwardWord 1 Emacs; Undo 1 = one | / draw '> one |' at 0,6 to 0,6
    one two|: Kill BackwardWord 1 Emacs; Kill BackwardWord 1 Emacs; Yank 1 Before = one two| / draw '> one two|' at 0,9 to 0,9
    abc|d: Kill EndOfLine; Kill BeginningOfLine; Undo 1 = abc| / draw '> abc|' at 0,5 to 0,5
    abc|d: Kill EndOfLine; Kill BeginningOfLine; Yank 1 Before = abcd| / draw '> abcd|' at 0,6 to 0,6
    abc|d: Kill EndOfLine; Move BackwardChar 1; Kill EndOfLine; Undo 1 = abcd| / draw '> abcd|' at 0,6 to 0,6
    abc|d: Kill EndOfLine; Move BackwardChar 1; Kill EndOfLine; Yank 1 Before = abc| / draw '> abc|' at 0,5 to 0,5
    ab|cd: Kill EndOfLine; Kill BackwardChar 1; Kill BeginningOfLine; Undo 1 = abcd| / draw '> abcd|' at 0,6 to 0,6
    ab|cd: Kill EndOfLine; Kill BackwardChar 1; Kill BeginningOfLine; Yank 1 Before = a| / draw '> a|' at 0,3 to 0,3
    ab|: Kill ViCharSearch 1 BackwardAfter b; Undo 1 = ab| /
    ab|: Kill ViCharSearch 1 BackwardAfter b; Yank 1 Before = ab| /
    ab␊c|d␊ef: Kill LineUp 1; Undo 1 = ab␊cd␊|ef / draw '> ab␊cd␊|ef' at 2,0 to 2,2
    ab␊c|d␊ef: Kill LineUp 1; Yank 1 Before = ab␊cd␊|ef / draw '> ab␊cd␊|ef' at 2,0 to 2,2
    a|bc: ViYankTo EndOfLine; Undo 1 = a|bc /
    a|bc: ViYankTo EndOfLine; Yank 1 Before = abc|bc / draw '> abc|bc' at 0,5 to 0,7
    abc|: ViYankTo EndOfLine; Undo 1 = abc| /
    abc|: ViYankTo EndOfLine; Yank 1 Before = abc| /
    a|bc␊de: ViYankTo WholeLine; Undo 1 = a|bc␊de /
    a|bc␊de: ViYankTo WholeLine; Yank 1 Before = aabc|bc␊de / draw '> aabc|bc␊de' at 0,6 to 1,2
    |: ViYankTo WholeLine; Undo 1 = | /
    |: ViYankTo WholeLine; Yank 1 Before = | /
    ab|: Kill WholeLine; Insert 1 xy; ViYankTo BackwardChar 1; Undo 1 = | / draw '> |' at 0,2 to 0,2
    ab|: Kill WholeLine; Insert 1 xy; ViYankTo BackwardChar 1; Yank 1 Before = xyy| / draw '> xyy|' at 0,5 to 0,5
    ab|c: Replace ForwardChar 1 with xy; Undo 1 = ab| / draw '> ab|' at 0,4 to 0,4
    ab|c: Replace ForwardChar 1 with xy; Yank 1 Before = ab|xy /
    a|bc: Replace EndOfLine with xy; Undo 1 = a| / draw '> a|' at 0,3 to 0,3
    a|bc: Replace EndOfLine with xy; Yank 1 Before = abc|xy / draw '> abc|xy' at 0,5 to 0,7
    a|bc: Replace EndOfLine; Undo 1 = abc| / draw '> abc|' at 0,5 to 0,5
    a|bc: Replace EndOfLine; Yank 1 Before = abc| / draw '> abc|' at 0,5 to 0,5
";

const WITH_HINTS: &str = "
    history: abcd = nothing
    helper: verdict:Valid hints:taken = nothing
    abx|: Repaint; Kill BackwardChar 1 = ab| / draw '> ab|{cd}' at 0,4 to 0,6
    ab|: Repaint; Kill BackwardChar 2 = | / draw '> |' at 0,2 to 0,2
    ab|: Repaint; Kill ForwardChar 1; CompleteHint = abcd| / draw '> abcd|' at 0,6 to 0,6
    xyz|: Repaint; Kill BackwardChar 1 = xy| / move 0,5 to 0,4; clear row
";

// Before the end of a line, if lines are drawn in part.
const INSIDE: &str = "
    partial: yes = nothing
    |abc: Kill ForwardChar 1 = |bc / move 0,2 to 0,2; take out 1 before 'bc' 0,4
    ab|cd: Kill BackwardChar 1 = a|cd / move 0,4 to 0,3; take out 1 before 'cd' 0,5
    one |two three: Kill ForwardWord 1 AfterEnd Emacs = one | three / move 0,6 to 0,6; take out 3 before ' three' 0,12
    ab␊c|de: Kill ForwardChar 1 = ab␊c|e / move 1,1 to 1,1; take out 1 before 'e' 1,2
    a|bc: Kill EndOfLine = a| / move 0,3 to 0,3; clear row

    columns: 10 = nothing
    |abcdefghij: Kill ForwardChar 1 = |bcdefghij / move 0,2 to 0,2; take out 1 before 'bcdefghij' 1,1
    |abcdefghij: Kill ForwardChar 2 = |cdefghij / move 0,2 to 0,2; take out 2 before 'cdefghij' 1,0
    |abcdefghij: Kill ForwardChar 3 = |defghij / move 0,2 to 0,2; rest 'defghij' at 0,2 to 0,9
    abcdefg|hijk: Kill ForwardChar 1 = abcdefg|ijk / move 0,9 to 0,9; take out 1 before 'ijk' 1,2
    abcdefg|hijk: Kill ForwardChar 2 = abcdefg|jk / move 0,9 to 0,9; rest 'jk' at 0,9 to 1,1
    abcdefghi|jk: Kill BackwardChar 1 = abcdefgh|jk / move 1,1 to 1,0; take out 1 before 'jk' 1,2
    ab |cd efghijk: Kill ForwardWord 1 AfterEnd Emacs = ab | efghijk / move 0,5 to 0,5; take out 2 before ' efghijk' 1,3
    ab cd |efghijk: Kill BackwardWord 1 Emacs = ab |efghijk / move 0,8 to 0,5; take out 3 before 'efghijk' 1,2
    abc|defghijklmnopqrst: Kill ForwardChar 2 = abc|fghijklmnopqrst / move 0,5 to 0,5; take out 2 before 'fghijklmnopqrst' 2,0
    abcdefgh|: Kill BackwardChar 1 = abcdefg| / move 1,0 to 0,9; rest '' at 0,9 to 0,9
    ab cdefghij|: Kill BackwardWord 1 Emacs = ab | / move 1,3 to 0,5; rest '' at 0,5 to 0,5
    abcdefgh漢|: Kill BackwardChar 1 = abcdefgh| / move 1,2 to 1,0; rest '' at 1,0 to 1,0
";

// From the changed place on, if lines are drawn in part.
const FROM_A_PLACE: &str = "
    partial: yes = nothing
    a|b␊c: Kill ForwardChar 1 = a|␊c / move 0,3 to 0,3; rest '␊c' at 0,3 to 1,1
    one two|␊c: Kill BackwardWord 1 Emacs = one |␊c / move 0,9 to 0,6; rest '␊c' at 0,6 to 1,1
    a|␊bc: Kill ForwardChar 1 = a|bc / move 0,3 to 0,3; rest 'bc' at 0,3 to 0,5
    é|ab: Kill ForwardChar 1 = é|b / move 0,3 to 0,3; rest 'b' at 0,3 to 0,4
    a|éb: Kill ForwardChar 1 = a|b / move 0,3 to 0,3; rest 'b' at 0,3 to 0,4
    漢字|a␊b: Kill BackwardChar 1 = 漢|a␊b / move 0,6 to 0,4; rest 'a␊b' at 0,4 to 1,1
    ab␊漢c|d␊ef: Kill LineUp 1 = |ef / move 1,3 to 0,2; rest 'ef' at 0,2 to 0,4
    e\u{301}|: Kill BackwardChar 1 = | / move 0,3 to 0,2; rest '' at 0,2 to 0,2
    ex|\u{301}: Kill BackwardChar 1 = e|\u{301} / draw '> e|\u{301}' at 0,3 to 0,3
    |abc: Replace ForwardChar 1 with x = |xbc / move 0,2 to 0,2; take out 1 before 'bc' 0,4; move 0,2 to 0,2; rest 'xbc' at 0,2 to 0,5

    history: abcd = nothing
    helper: verdict:Valid hints:taken = nothing
    abx|: Repaint; Kill BackwardChar 1 = ab| / move 0,5 to 0,4; rest '{cd}' at 0,4 to 0,6
    ab|: Repaint; Kill BackwardChar 2 = | / move 0,4 to 0,2; rest '' at 0,2 to 0,2
    abx|y: Repaint; Kill BackwardChar 1 = ab|y / move 0,5 to 0,4; take out 1 before 'y' 0,5
    history: = nothing
    colours: yes = nothing
    advised: keyword:aa styled:0,0,bold marks-from:0 = nothing
    aabc|d: Repaint; Kill BackwardChar 1 = aab|d / move 0,6 to 0,5; rest 'd' at 0,5 to 0,6 lit marked
    a|ba: Repaint; Kill ForwardChar 1 = a|a / move 0,3 to 0,2; rest 'aa' at 0,3 to 0,4 lit marked
    advised: keyword:bb = nothing
    abb|c: Repaint; Kill BackwardChar 1 = ab|c / move 0,5 to 0,3; rest 'bc' at 0,4 to 0,5 lit marked
    aabb|: Repaint; Kill BackwardChar 1 = aab| / move 0,6 to 0,4; rest 'b' at 0,5 to 0,5 lit marked
";

pub(crate) const TABLES: [&str; 5] = [DRAWN, KEPT, WITH_HINTS, INSIDE, FROM_A_PLACE];
