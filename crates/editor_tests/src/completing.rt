//! Completion of the word before the cursor, with a helper's candidates.

const COMPLETIONS: &str = "
    al|: Complete = al| /
    helper: verdict:Valid hints:taken = nothing
    al|: Complete = al| / beep
    advised: start:0 offers:alpha,alpine = nothing
    al|: Complete = alp| / draw '> alp|' at 0,5 to 0,5
    |: Complete = alp| / draw '> alp|' at 0,5 to 0,5
    alp|: Complete = alp| / beep
    alph|: Complete = alph| / beep
    al|x y: Complete = alp|x y / draw '> alp|x y' at 0,5 to 0,8
    al|: CompleteBackward = al| /
    al|: Complete; Complete = alp| / beep

    advised: start:2 offers:alpha,alpine = nothing
    x al|: Complete = x alp| / draw '> x alp|' at 0,7 to 0,7
    x al| z: Complete = x alp| z / draw '> x alp| z' at 0,7 to 0,9
    x |: Complete = x alp| / draw '> x alp|' at 0,7 to 0,7
    a|l: Complete = a|l / beep

    advised: start:0 offers:alpha = nothing
    alph|: Complete = alpha| / draw '> alpha|' at 0,7 to 0,7
    alpha|: Complete = alpha| / draw '> alpha|' at 0,7 to 0,7
    zzzzzzz|: Complete = alpha| / draw '> alpha|' at 0,7 to 0,7
    advised: start:0 offers:alpha,alpha = nothing
    alph|: Complete = alpha| / draw '> alpha|' at 0,7 to 0,7
    alpha|: Complete = alpha| / beep

    advised: start:0 offers:grün,größe = nothing
    g|: Complete = gr| / draw '> gr|' at 0,4 to 0,4
    advised: start:3 offers:grün,größe = nothing
    ßgg|: Complete = ßggr| / draw '> ßggr|' at 0,6 to 0,6
    ßg|: Complete = ßggr| / draw '> ßggr|' at 0,6 to 0,6
    ß|g: Complete = ß|g / beep
    advised: start:2 offers:grün,größe = nothing
    ßg|: Complete = ßgr| / draw '> ßgr|' at 0,5 to 0,5
    advised: start:1 offers:grün,größe = nothing
    ßg|: Complete = ßg| / beep

    advised: start:0 offers:e\u{301}a,e\u{300}a = nothing
    |: Complete = e| / draw '> e|' at 0,3 to 0,3
    e|: Complete = e| / beep

    columns: 8 = nothing
    advised: start:5 offers:alphabetagammadelta = nothing
    abcd a| z: Complete = abcd alphabetagammadelta| z / draw '> abcd alphabetagammadelta| z' at 3,2 to 3,4 below 1
";

const TAKEN_BACK: &str = "
    helper: verdict:Valid hints:taken = nothing
    advised: start:0 offers:alpha,alpine = nothing
    al|: Complete; Undo 1 = al| / draw '> al|' at 0,4 to 0,4
    al|: SelfInsert 1 p; SelfInsert 1 h; Undo 1 = al| / draw '> al|' at 0,4 to 0,4
    al|: Complete; SelfInsert 1 h; Undo 1 = alp| / draw '> alp|' at 0,5 to 0,5
    al|: Kill BackwardChar 1; Complete; Undo 1 = a| / draw '> a|' at 0,3 to 0,3
";

// The group that was begun for it stays open: text typed then is undone step by step.
const FAILING_COMPLETERS: &str = "
    helper: verdict:Valid hints:taken = nothing
    advised: start:0 offers:alpha,alpine = nothing
    advised: completion-fails:2 = nothing
    al|: Complete = Helper al| /
    a|: Complete = alp| / draw '> alp|' at 0,5 to 0,5
    advised: wants-memory = nothing
    al|: Complete = Memory al| /
    advised: completion-fails:never = nothing
    advised: update-fails:3 = nothing
    al|: Complete = Memory al| /
    advised: wants-memory:no = nothing
    al|: Complete = Helper al| /
    alp|: Complete = alp| / beep
    advised: update-fails:never = nothing
    advised: hint-fails:3 = nothing
    al|: Complete = Helper alp| /
    advised: hint-fails:never = nothing
    answered: 0 = nothing
    al|: Complete = Display alp| /
    alp|: Complete = Display alp| /
";

pub(crate) const TABLES: [&str; 3] = [COMPLETIONS, TAKEN_BACK, FAILING_COMPLETERS];
