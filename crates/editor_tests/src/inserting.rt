//! Insertions of characters and texts.

const INSERTIONS: &str = "
    |: SelfInsert 1 a = a| / write 'a'
    ab|: SelfInsert 1 c = abc| / write 'c'
    ab|: SelfInsert 1 ␠ = ab | / write ' '
    ab␊|: SelfInsert 1 x = ab␊x| / write 'x'
    a|b: SelfInsert 1 x = ax|b / draw '> ax|b' at 0,4 to 0,5
    |ab: SelfInsert 1 x = x|ab / draw '> x|ab' at 0,3 to 0,5
    ab|: SelfInsert 3 x = abxxx| / draw '> abxxx|' at 0,7 to 0,7
    ab|: SelfInsert 0 x = ab| / draw '> ab|' at 0,4 to 0,4
    ab|: SelfInsert 1 ~ = ab~| / write '~'
    ab|: SelfInsert 1 ␡ = ab␡| / draw '> ab␡|' at 0,5 to 0,5
    ab|: SelfInsert 1 ␉ = ab␉| / draw '> ab␉|' at 0,5 to 0,5
    ab|: SelfInsert 1 é = abé| / draw '> abé|' at 0,5 to 0,5
    ab|: SelfInsert 1 漢 = ab漢| / draw '> ab漢|' at 0,6 to 0,6
    é|: SelfInsert 1 x = éx| / draw '> éx|' at 0,4 to 0,4
    é|: SelfInsert 1 x; Kill BeginningOfLine; SelfInsert 1 y = y| / write 'y'
    e|: SelfInsert 1 \u{301} = e\u{301}| / draw '> e\u{301}|' at 0,3 to 0,3
    ab|: SelfInsert 1 ␊ = ab␊| / draw '> ab␊|' at 1,0 to 1,0
    ab␉|: SelfInsert 1 x = ab␉x| / draw '> ab␉x|' at 0,6 to 0,6
    ab␊cd|: SelfInsert 1 é = ab␊cdé| / draw '> ab␊cdé|' at 1,3 to 1,3 below 1

    a|b: Insert 1 xy = axy|b / draw '> axy|b' at 0,5 to 0,6
    a|b: Insert 2 xy = axyxy|b / draw '> axyxy|b' at 0,7 to 0,8
    a|b: Insert 0 xy = a|b / draw '> a|b' at 0,3 to 0,4
    a|b: Insert 1 = a|b /
    ab|: Insert 1 c = abc| / draw '> abc|' at 0,5 to 0,5
    |: Insert 1 a␊b = a␊b| / draw '> a␊b|' at 1,1 to 1,1
    ab|: Newline = ab␊| / draw '> ab␊|' at 1,0 to 1,0
    a|b: Newline = a␊|b / draw '> a␊|b' at 1,0 to 1,1

    a|bcd: ReplaceChar 2 x = ax|xd / draw '> ax|xd' at 0,4 to 0,6
    ab|c: ReplaceChar 9 x = ab|x / draw '> ab|x' at 0,4 to 0,5
    ab|c: ReplaceChar 1 漢 = ab|漢 / draw '> ab|漢' at 0,4 to 0,6
    |漢字: ReplaceChar 1 x = |x字 / draw '> |x字' at 0,2 to 0,5
    |e\u{301}b: ReplaceChar 1 x = |xb / draw '> |xb' at 0,2 to 0,4
    abc|: ReplaceChar 1 x = abc| /
    a|b: ReplaceChar 0 x = a|b /
    |: ReplaceChar 1 x = | /
    a|bc: Overwrite x = ax|c / draw '> ax|c' at 0,4 to 0,5
    |漢字: Overwrite x = x|字 / draw '> x|字' at 0,3 to 0,5
    abc|: Overwrite x = abc| /
    |: Overwrite x = | /

    |: SelfInsert 1 a; Undo 1 = | / draw '> |' at 0,2 to 0,2
    |: SelfInsert 1 a; SelfInsert 1 b; Undo 1 = | / draw '> |' at 0,2 to 0,2
    |: SelfInsert 1 a; SelfInsert 1 +; Undo 1 = a| / draw '> a|' at 0,3 to 0,3
    |: SelfInsert 1 a; SelfInsert 1 +; SelfInsert 1 b; Undo 1 = a| / draw '> a|' at 0,3 to 0,3
    a|b: SelfInsert 1 x; Undo 1 = a|b / draw '> a|b' at 0,3 to 0,4
    ab|: SelfInsert 3 x; Undo 1 = ab| / draw '> ab|' at 0,4 to 0,4
    ab|: SelfInsert 0 x; Undo 1 = ab| /
    a|b: Insert 1 xy; Undo 1 = a|b / draw '> a|b' at 0,3 to 0,4
    a|b: Insert 1 xy; SelfInsert 1 z; Undo 1 = a|b / draw '> a|b' at 0,3 to 0,4
    a|bcd: ReplaceChar 2 x; Undo 1 = abc|d / draw '> abc|d' at 0,5 to 0,6
    a|bc: Overwrite x; Undo 1 = ab|c / draw '> ab|c' at 0,4 to 0,5
    ab|: Newline; Undo 1 = ab| / draw '> ab|' at 0,4 to 0,4 below 1

    columns: 10 = nothing
    abcdef|: SelfInsert 1 g = abcdefg| / write 'g'
    abcdefg|: SelfInsert 1 h = abcdefgh| / draw '> abcdefgh|' at 1,0 to 1,0
    abcdefgh|: SelfInsert 1 i = abcdefghi| / write 'i'
    abcdefgh|: SelfInsert 1 é = abcdefghé| / draw '> abcdefghé|' at 1,1 to 1,1 below 1
    abc|defgh: SelfInsert 1 x = abcx|defgh / draw '> abcx|defgh' at 0,6 to 1,1
";

const HINTS_AND_HIGHLIGHTS: &str = "
    history: abcd = nothing
    helper: verdict:Valid hints:taken = nothing
    a|: SelfInsert 1 b = ab| / draw '> ab|{cd}' at 0,4 to 0,6
    |: SelfInsert 1 x = x| / write 'x'
    ab|: Repaint; SelfInsert 1 x = abx| / draw '> abx|' at 0,5 to 0,5
    ab|: Repaint; SelfInsert 1 x; SelfInsert 1 y = abxy| / write 'y'
    ab|: Repaint; Newline = ab␊| / draw '> ab|' at 0,4 to 0,4; draw '> ab␊|' at 1,0 to 1,0
    |b: Insert 1 a; Move EndOfLine; Repaint = ab| / draw '> ab|{cd}' at 0,4 to 0,6

    history: = nothing
    colours: yes = nothing
    advised: marked:3 = nothing
    ab|: SelfInsert 1 c = abc| / draw '> abc|' at 0,5 to 0,5 lit marked
    ab|: SelfInsert 1 c; SelfInsert 1 d = abcd| / draw '> abcd|' at 0,6 to 0,6 lit
    ab|: SelfInsert 1 c; SelfInsert 1 d; SelfInsert 1 e = abcde| / write 'e'
";

// Behind clusters of one byte each a letter's byte is enough, if tabs are drawn.
const AFTER_TABS: &str = "
    ab␉|: SelfInsert 1 x = ab␉x| / draw '> ab␉x|' at 0,6 to 0,6

    tabs: 8 = nothing
    ab␉|: SelfInsert 1 x = ab␉x| / write 'x'
    ab␉|: SelfInsert 1 x; SelfInsert 1 y = ab␉xy| / write 'y'
    ␉␊␉|: SelfInsert 1 x = ␉␊␉x| / write 'x'
    ab|: SelfInsert 1 x = abx| / write 'x'
    ab|: SelfInsert 1 ␉ = ab␉| / draw '> ab␉|' at 0,8 to 0,8
    abcdef|: SelfInsert 1 ␉ = abcdef␉| / draw '> abcdef␉|' at 0,16 to 0,16
    ab␉|: SelfInsert 1 ␉ = ab␉␉| / draw '> ab␉␉|' at 0,16 to 0,16
    ab␉|: SelfInsert 2 x = ab␉xx| / draw '> ab␉xx|' at 0,10 to 0,10
    a|␉b: SelfInsert 1 x = ax|␉b / draw '> ax|␉b' at 0,4 to 0,9
    ab␉|: SelfInsert 1 é = ab␉é| / draw '> ab␉é|' at 0,9 to 0,9
    é|: SelfInsert 1 x = éx| / draw '> éx|' at 0,4 to 0,4
    é␉|: SelfInsert 1 x = é␉x| / draw '> é␉x|' at 0,9 to 0,9
    ab␉␡|: SelfInsert 1 x = ab␉␡x| / draw '> ab␉␡x|' at 0,10 to 0,10
    ab␉x|: Kill BackwardChar 1 = ab␉| / draw '> ab␉|' at 0,8 to 0,8

    columns: 10 = nothing
    abcdefgh␉|: SelfInsert 1 x = abcdefgh␉x| / write 'x'
    abcdefgh␉x|: SelfInsert 1 y = abcdefgh␉xy| / draw '> abcdefgh␉xy|' at 2,0 to 2,0 below 1
    abcdef␉|: SelfInsert 1 x = abcdef␉x| / write 'x'
";

// Before the end of a line, if lines are drawn in part.
const INSIDE: &str = "
    partial: yes = nothing
    |abc: SelfInsert 1 x = x|abc / put 'x' before 'abc' 0,3 0,6
    a|b: SelfInsert 1 x = ax|b / put 'x' before 'b' 0,4 0,5
    ab␊|c: SelfInsert 1 x = ab␊x|c / put 'x' before 'c' 1,1 1,2
    ab|: SelfInsert 1 c = abc| / append 'c' at 0,4

    columns: 10 = nothing
    abcdef|g: SelfInsert 1 x = abcdefx|g / put 'x' before 'g' 0,9 1,0
    abcdefg|h: SelfInsert 1 x = abcdefgx|h / put 'x' before 'h' 1,0 1,1
    abc|defghijklmnopqrst: SelfInsert 1 x = abcx|defghijklmnopqrst / put 'x' before 'defghijklmnopqrst' 0,6 2,3

    columns: 2 = nothing
    |abcdefghijklmnopqrstuvwxyzabcdefghijklmnopqrs: SelfInsert 1 x = x|abcdefghijklmnopqrstuvwxyzabcdefghijklmnopqrs / put 'x' before 'abcdefghijklmnopqrstuvwxyzabcdefghijklmnopqrs' 1,1 24,0
    |abcdefghijklmnopqrstuvwxyzabcdefghijklmnopqrst: SelfInsert 1 x = x|abcdefghijklmnopqrstuvwxyzabcdefghijklmnopqrst / draw '> x|abcdefghijklmnopqrstuvwxyzabcdefghijklmnopqrst' at 1,1 to 24,1 below 1
";

// From the changed place on, if lines are drawn in part.
const FROM_A_PLACE: &str = "
    partial: yes = nothing
    a|b: SelfInsert 2 x = axx|b / move 0,3 to 0,3; rest 'xxb' at 0,5 to 0,6
    a|b: SelfInsert 1 é = aé|b / move 0,3 to 0,3; rest 'éb' at 0,4 to 0,5
    é|b: SelfInsert 1 x = éx|b / move 0,3 to 0,3; rest 'xb' at 0,4 to 0,5
    |漢字: SelfInsert 1 x = x|漢字 / move 0,2 to 0,2; rest 'x漢字' at 0,3 to 0,7
    a|b␊c: SelfInsert 1 x = ax|b␊c / move 0,3 to 0,3; rest 'xb␊c' at 0,4 to 1,1
    é|b␊漢: SelfInsert 1 x = éx|b␊漢 / move 0,3 to 0,3; rest 'xb␊漢' at 0,4 to 1,2
    漢|: Newline = 漢␊| / move 0,4 to 0,4; rest '␊' at 1,0 to 1,0
    a|b: Newline = a␊|b / move 0,3 to 0,3; rest '␊b' at 1,0 to 1,1
    ab|: SelfInsert 1 ␉ = ab␉| / draw '> ab␉|' at 0,5 to 0,5
    ␉|b: SelfInsert 1 x = ␉x|b / draw '> ␉x|b' at 0,4 to 0,5
    e|: SelfInsert 1 \u{301} = e\u{301}| / draw '> e\u{301}|' at 0,3 to 0,3
    a|\u{301}b: SelfInsert 1 x = ax|\u{301}b / draw '> ax|\u{301}b' at 0,4 to 0,5

    a|b: Insert 1 xy = axy|b / move 0,3 to 0,3; rest 'xyb' at 0,5 to 0,6
    a|b: Insert 1 x␊y = ax␊y|b / move 0,3 to 0,3; rest 'x␊yb' at 1,1 to 1,2
    a|b: Insert 0 xy = a|b / move 0,3 to 0,3; rest 'b' at 0,3 to 0,4
    a|b: Insert 1 = a|b /

    a|bcd: ReplaceChar 2 x = ax|xd / move 0,3 to 0,3; rest 'xxd' at 0,4 to 0,6
    ab|c: ReplaceChar 1 漢 = ab|漢 / move 0,4 to 0,4; rest '漢' at 0,4 to 0,6
    |e\u{301}b: ReplaceChar 1 x = |xb / move 0,2 to 0,2; rest 'xb' at 0,2 to 0,4
    abc|: ReplaceChar 1 x = abc| /
    a|bc: Overwrite x = ax|c / move 0,3 to 0,3; rest 'xc' at 0,4 to 0,5
    |漢字: Overwrite x = x|字 / move 0,2 to 0,2; rest 'x字' at 0,3 to 0,5
    a|bc: Overwrite \u{301} = a\u{301}|c / draw '> a\u{301}|c' at 0,3 to 0,4
    abc|: Overwrite x = abc| /

    columns: 10 = nothing
    éabcdef|gh: SelfInsert 1 x = éabcdefx|gh / move 0,9 to 0,9; rest 'xgh' at 1,0 to 1,2
    éabcdefghi|j: SelfInsert 1 x = éabcdefghix|j / move 1,2 to 1,2; rest 'xj' at 1,3 to 1,4
    columns: 80 = nothing

    history: abcd = nothing
    helper: verdict:Valid hints:taken = nothing
    a|: SelfInsert 1 b = ab| / move 0,3 to 0,3; rest 'b{cd}' at 0,4 to 0,6
    ab|: Repaint; SelfInsert 1 x = abx| / move 0,4 to 0,4; rest 'x' at 0,5 to 0,5
    ab|: Repaint; SelfInsert 1 x; SelfInsert 1 y = abxy| / append 'y' at 0,5
    ab|: Repaint; SelfInsert 1 c = abc| / move 0,4 to 0,4; rest 'c{d}' at 0,5 to 0,6

    history: = nothing
    colours: yes = nothing
    advised: marked:3 = nothing
    ab|: SelfInsert 1 c = abc| / move 0,4 to 0,4; rest 'c' at 0,5 to 0,5 lit marked
    ab|: SelfInsert 1 c; SelfInsert 1 d = abcd| / move 0,5 to 0,5; rest 'd' at 0,6 to 0,6 lit
    ab|: SelfInsert 2 d = abdd| / move 0,4 to 0,4; rest 'dd' at 0,6 to 0,6 lit
";

// The same with styles: a keyword is bold.
const BEHIND_STYLES: &str = "
    partial: yes = nothing
    colours: yes = nothing
    helper: verdict:Valid hints:taken = nothing
    advised: keyword:aa styled:0,0,bold marks-from:0 = nothing
    first: Repaint = nothing
    aab|: SelfInsert 1 c = aabc| / move 0,5 to 0,5; rest 'c' at 0,6 to 0,6 lit marked
    aab|c: SelfInsert 1 x = aabx|c / move 0,5 to 0,5; rest 'xc' at 0,6 to 0,7 lit marked
    a|ac: SelfInsert 1 x = ax|ac / move 0,3 to 0,2; rest 'axac' at 0,4 to 0,6 lit marked
    aa|b: Insert 1 x = aax|b / move 0,4 to 0,4; rest 'xb' at 0,5 to 0,6 lit marked
    aé|: SelfInsert 1 \u{301} = aé\u{301}| / draw '> aé\u{301}|' at 0,4 to 0,4 lit marked
    abcdefghijabcdefghijabcdefghijabcdefghijabcdefghijabcdefghijabc|: SelfInsert 1 x = abcdefghijabcdefghijabcdefghijabcdefghijabcdefghijabcdefghijabcx| / move 0,65 to 0,65; rest 'x' at 0,66 to 0,66 lit marked
    abcdefghijabcdefghijabcdefghijabcdefghijabcdefghijabcdefghijabcd|: SelfInsert 1 x = abcdefghijabcdefghijabcdefghijabcdefghijabcdefghijabcdefghijabcdx| / move 0,66 to 0,66; rest 'x' at 0,67 to 0,67 lit marked
    abcdefghijabcdefghijabcdefghijabcdefghijabcdefghijabcdefghijabcdef|: SelfInsert 1 x = abcdefghijabcdefghijabcdefghijabcdefghijabcdefghijabcdefghijabcdefx| / move 0,68 to 0,66; rest 'efx' at 0,69 to 0,69 lit marked
    advised: keyword:bb = nothing
    ab|: SelfInsert 1 b = abb| / move 0,4 to 0,3; rest 'bb' at 0,5 to 0,5 lit marked
";

pub(crate) const TABLES: [&str; 6] = [
    INSERTIONS,
    HINTS_AND_HIGHLIGHTS,
    AFTER_TABS,
    INSIDE,
    FROM_A_PLACE,
    BEHIND_STYLES,
];
