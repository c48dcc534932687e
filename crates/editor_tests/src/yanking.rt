//! Yanks.

// `one` and `two` are killed, each into its own slot, `one` last.
const YANKS: &str = "
    |: Yank 1 Before = | /
    |ab: Yank 1 After = |ab /
    a|bc: Kill EndOfLine; Yank 1 Before = abc| / draw '> abc|' at 0,5 to 0,5
    a|bc: Kill EndOfLine; Yank 2 Before = abcbc| / draw '> abcbc|' at 0,7 to 0,7
    a|bc: Kill EndOfLine; Yank 0 Before = a| / draw '> a|' at 0,3 to 0,3
    a|bc: Kill EndOfLine; Move BeginningOfLine; Yank 1 After = abc| / draw '> abc|' at 0,5 to 0,5
    abc|: Kill BeginningOfLine; Yank 1 After = abc| / draw '> abc|' at 0,5 to 0,5
    ab|: Kill ViCharSearch 1 BackwardAfter b; Yank 1 Before = ab| /
    ab|c: Kill ViCharSearch 1 BackwardAfter b; Yank 1 After = abc| / draw '> abc|' at 0,5 to 0,5
    |: YankPop = | /
    abc|: YankPop = abc| /
    a|bc: Kill EndOfLine; YankPop = a| /
    a|bc: Kill EndOfLine; Yank 1 Before; YankPop = abc| / draw '> abc|' at 0,5 to 0,5
    a|bc: Kill EndOfLine; Yank 1 Before; Move BackwardChar 1; YankPop = ab|c /

    first: Kill BackwardWord 1 Emacs; Move BackwardChar 1; Kill BackwardWord 1 Emacs = nothing
    one two|: Yank 1 Before; YankPop = two|  / draw '> two| ' at 0,5 to 0,6
    one two|: Yank 1 Before; YankPop; YankPop = one|  / draw '> one| ' at 0,5 to 0,6
    one two|: Yank 2 Before; YankPop = onetwo|  / draw '> onetwo| ' at 0,8 to 0,9
    one two|: Yank 0 Before; YankPop = |  /
    éé one two|: Move BackwardChar 1; Yank 0 Before; YankPop = éé|   /

    one two|: Yank 1 Before; Undo 1 = |  / draw '> | ' at 0,2 to 0,3
    one two|: Yank 1 Before; Yank 1 Before = oneone|  / draw '> oneone| ' at 0,8 to 0,9
    one two|: Yank 1 Before; YankPop; Undo 1 = one|  / draw '> one| ' at 0,5 to 0,6
    one two|: Yank 1 Before; YankPop; Yank 1 Before = twotwo|  / draw '> twotwo| ' at 0,8 to 0,9
    one two|: Yank 0 Before; YankPop; Undo 1 = one|  / draw '> one| ' at 0,5 to 0,6
    one two|: Yank 0 Before; YankPop; Yank 1 Before = two|  / draw '> two| ' at 0,5 to 0,6
";

// From the changed place on, if lines are drawn in part.
const FROM_A_PLACE: &str = "
    partial: yes = nothing
    a|bc: Kill EndOfLine; Yank 1 Before = abc| / move 0,3 to 0,3; rest 'bc' at 0,5 to 0,5
    a|bc: Kill EndOfLine; Yank 0 Before = a| / move 0,3 to 0,3; rest '' at 0,3 to 0,3
    a b|漢: Kill BackwardWord 1 Emacs; Yank 1 Before = a b|漢 / move 0,4 to 0,4; rest 'b漢' at 0,5 to 0,7
    a|bc: Kill EndOfLine; Move BeginningOfLine; Yank 1 After = abc| / move 0,2 to 0,3; rest 'bc' at 0,5 to 0,5
    ab|c: Kill ViCharSearch 1 BackwardAfter b; Yank 1 After = abc| / move 0,4 to 0,5; rest '' at 0,5 to 0,5
    \u{301}|: Kill BackwardChar 1; SelfInsert 1 e; Insert 1 \u{301} = e\u{301}| / draw '> e\u{301}|' at 0,3 to 0,3

    first: Kill BackwardWord 1 Emacs; Move BackwardChar 1; Kill BackwardWord 1 Emacs = nothing
    one two|: Yank 1 Before; YankPop = two|  / move 0,5 to 0,2; rest 'two ' at 0,5 to 0,6
    漢 one two|: Yank 1 Before; YankPop = 漢 two|  / move 0,8 to 0,5; rest 'two ' at 0,8 to 0,9
    one two|: Yank 0 Before; YankPop = |  /
";

pub(crate) const TABLES: [&str; 2] = [YANKS, FROM_A_PLACE];
