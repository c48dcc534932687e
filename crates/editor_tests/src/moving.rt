//! Motions.

const MOTIONS: &str = "
    |: Move BackwardChar 1 = | /
    |: Move ForwardChar 1 = | /
    |: Move BeginningOfLine = | /
    |: Move EndOfLine = | /
    ab|c: Move BackwardChar 1 = a|bc / move 0,4 to 0,3
    ab|c: Move BackwardChar 2 = |abc / move 0,4 to 0,2
    ab|c: Move BackwardChar 99 = |abc / move 0,4 to 0,2
    ab|c: Move BackwardChar 0 = ab|c /
    |abc: Move BackwardChar 1 = |abc /
    ab|c: Move ForwardChar 1 = abc| / move 0,4 to 0,5
    a|bc: Move ForwardChar 9 = abc| / move 0,3 to 0,5
    a|bc: Move ForwardChar 0 = a|bc /
    abc|: Move ForwardChar 1 = abc| /
    ab|c: Move BeginningOfLine = |abc / move 0,4 to 0,2
    |abc: Move BeginningOfLine = |abc /
    ab|c: Move EndOfLine = abc| / move 0,4 to 0,5
    abc|: Move EndOfLine = abc| /
    a|b: Move WholeLine = a|b /
    a|b: Move WholeBuffer = a|b /
    漢字|: Move BackwardChar 1 = 漢|字 / move 0,6 to 0,4
    |漢字: Move ForwardChar 2 = 漢字| / move 0,2 to 0,6
    é|x: Move BackwardChar 1 = |éx / move 0,3 to 0,2
    e|\u{301}x: Move ForwardChar 1 = e\u{301}|x /
    e\u{301}|x: Move BackwardChar 1 = |e\u{301}x / move 0,3 to 0,2
    👨‍👩‍👧|: Move BackwardChar 1 = |👨‍👩‍👧 / move 0,4 to 0,2

    |one two: Move ForwardWord 1 AfterEnd Emacs = one| two / move 0,2 to 0,5
    |one two: Move ForwardWord 1 Start Vi = one |two / move 0,2 to 0,6
    |one two: Move ForwardWord 1 BeforeEnd Vi = on|e two / move 0,2 to 0,4
    one |two: Move ForwardWord 1 Start Vi = one tw|o / move 0,6 to 0,8
    one tw|o: Move ForwardWord 1 Start Vi = one tw|o /
    |one two: Move ForwardWord 9 AfterEnd Emacs = one two| / move 0,2 to 0,9
    one two|: Move ForwardWord 1 AfterEnd Emacs = one two| /
    |one two: Move ForwardWord 0 AfterEnd Emacs = |one two /
    one two|: Move BackwardWord 1 Emacs = one |two / move 0,9 to 0,6
    one two|: Move BackwardWord 9 Emacs = |one two / move 0,9 to 0,2
    |one two: Move BackwardWord 1 Emacs = |one two /
    one two|: Move BackwardWord 0 Emacs = one two| /
    alpha ,beta/rho; mu|: Move BackwardWord 1 Vi = alpha ,beta/rho; |mu / move 0,21 to 0,19
    alpha ,beta/rho; |mu: Move BackwardWord 1 Vi = alpha ,beta/rho|; mu / move 0,19 to 0,17
    alpha ,beta/rho; |mu: Move BackwardWord 1 Big = alpha |,beta/rho; mu / move 0,19 to 0,8

    a|bcbd: Move ViCharSearch 1 Forward b = abc|bd / move 0,3 to 0,5
    |abcb: Move ViCharSearch 9 Forward b = abc|b / move 0,2 to 0,5
    |abcb: Move ViCharSearch 1 ForwardBefore c = a|bcb / move 0,2 to 0,3
    |abc: Move ViCharSearch 1 Forward x = |abc /
    |abc: Move ViCharSearch 1 Forward a = |abc /
    |abc: Move ViCharSearch 0 Forward b = |abc /
    abcb|d: Move ViCharSearch 1 Backward b = abc|bd / move 0,6 to 0,5
    abcbd|: Move ViCharSearch 2 Backward b = a|bcbd / move 0,7 to 0,3
    abcbd|: Move ViCharSearch 1 BackwardAfter b = abcb|d / move 0,7 to 0,6
    |: Move ViCharSearch 1 Backward b = | /

    ab␊cd|: Move LineUp 1 = |ab␊cd / move 1,2 to 0,2
    abc␊wxyz|: Move LineUp 1 = ab|c␊wxyz / move 1,4 to 0,4
    ab|c␊wxyz: Move LineDown 1 = abc␊wxyz| / move 0,4 to 1,4
    abcdef|␊xy: Move LineDown 1 = abcdef␊xy| / move 0,8 to 1,2
    ab␊cd␊ef|: Move LineUp 9 = |ab␊cd␊ef / move 2,2 to 0,2
    |ab␊cd␊ef: Move LineDown 2 = ab␊cd␊ef| / move 0,2 to 2,2
    ab␊cd|: Move LineUp 0 = ab␊cd| /
    a|b␊cd: Move LineUp 1 = a|b␊cd /
    ab␊c|d: Move LineDown 1 = ab␊c|d /
    漢字␊abc|: Move LineUp 1 = |漢字␊abc / move 1,3 to 0,2
    漢字␊abcd|: Move LineUp 1 = 漢|字␊abcd / move 1,4 to 0,4
    ab␊c|d: Move BeginningOfLine = ab␊|cd / move 1,1 to 1,0
    a|b␊cd: Move EndOfLine = ab|␊cd / move 0,3 to 0,4
    ab␊c|d: Move BeginningOfBuffer = |ab␊cd / move 1,1 to 0,2
    |ab␊cd: Move BeginningOfBuffer = |ab␊cd /
    a|b␊cd: Move EndOfBuffer = ab␊cd| / move 0,3 to 1,2
    ab␊cd|: Move EndOfBuffer = ab␊cd| /

    ␠ ab|: Move ViFirstPrint = ␠ |ab / move 0,6 to 0,2; move 0,2 to 0,4
    |␠ ab: Move ViFirstPrint = ␠ |ab / move 0,2 to 0,4
    ab c|: Move ViFirstPrint = |ab c / move 0,6 to 0,2
    |ab: Move ViFirstPrint = |ab /
    |: Move ViFirstPrint = | /
";

const IN_TEN_COLUMNS: &str = "
    columns: 10 = nothing
    abcdefgh|: Move BackwardChar 1 = abcdefg|h / move 1,0 to 0,9
    abcdefg|h: Move ForwardChar 1 = abcdefgh| / move 0,9 to 1,0
    abcdefghij|: Move BeginningOfLine = |abcdefghij / move 1,2 to 0,2
    abcdefg漢|: Move BackwardChar 1 = abcdefg|漢 / move 1,2 to 0,9
";

const HIGHLIGHTS: &str = "
    helper: verdict:Valid hints:taken = nothing
    advised: marked:1 = nothing
    ab|c: Move BackwardChar 1 = a|bc / move 0,4 to 0,3

    colours: yes = nothing
    ab|c: Move BackwardChar 1 = a|bc / draw '> a|bc' at 0,3 to 0,5 lit marked
    ab|c: Move BackwardChar 1; Move BackwardChar 1 = |abc / draw '> |abc' at 0,2 to 0,5 lit
    ab|c: Move BackwardChar 1; Move BackwardChar 1; Move EndOfLine = abc| / move 0,2 to 0,5
    ab|c: Move BackwardChar 2 = |abc / move 0,4 to 0,2
";

const WITH_A_HINT: &str = "
    history: abcd = nothing
    helper: verdict:Valid hints:taken = nothing
    ab|: Repaint = ab| / draw '> ab|{cd}' at 0,4 to 0,6
    ab|: Repaint; Move BackwardChar 1 = a|b / move 0,4 to 0,3
    ab|: Repaint; Move ForwardChar 1 = ab| /
";

// Up and down count tabs as they are drawn, also in rows that the display wraps.
const OVER_TABS: &str = "
    ␉x␊abcdefgh|: Move LineUp 1 = ␉x|␊abcdefgh / move 1,8 to 0,4

    tabs: 8 = nothing
    a␉b|: Move BackwardChar 1 = a␉|b / move 0,9 to 0,8
    a␉|b: Move BackwardChar 1 = a|␉b / move 0,8 to 0,3
    ␉x␊abcdefgh|: Move LineUp 1 = ␉|x␊abcdefgh / move 1,8 to 0,8
    ␉x␊abcdefg|: Move LineUp 1 = |␉x␊abcdefg / move 1,7 to 0,2
    ab␊␉|x: Move LineUp 1 = ab|␊␉x / move 1,8 to 0,4
    ␉|x␊a␉b: Move LineDown 1 = ␉x␊a␉|b / move 0,8 to 1,8
    abc|␊␉x: Move LineDown 1 = abc␊|␉x / move 0,5 to 1,0

    tabs: 0 = nothing
    a␉b|␊abcdef: Move LineDown 1 = a␉b␊abcde|f / move 0,5 to 1,5

    tabs: 8 = nothing
    columns: 10 = nothing
    abcdefgh␉x␊abcdefghij␉|: Move LineUp 1 = abcdefgh␉|x␊abcdefghij␉ / move 3,8 to 1,8
    abcdefg␉x␊abcdefghij|: Move LineUp 1 = abcdefg␉|x␊abcdefghij / move 3,0 to 1,0
    abcdefg␉x␊abcdefghi|: Move LineUp 1 = abcdefg|␉x␊abcdefghi / move 2,9 to 0,9
";

pub(crate) const TABLES: [&str; 5] = [MOTIONS, IN_TEN_COLUMNS, HIGHLIGHTS, WITH_A_HINT, OVER_TABS];
