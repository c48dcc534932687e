//! Transpositions, changes of case, indentation, and undo.

const CHANGES: &str = "
    a|ßc: TransposeChars = ßa|c / draw '> ßa|c' at 0,4 to 0,5
    abc|: TransposeChars = acb| / draw '> acb|' at 0,5 to 0,5
    aa|: TransposeChars = aa| / draw '> aa|' at 0,4 to 0,4
    漢字|: TransposeChars = 字漢| / draw '> 字漢|' at 0,6 to 0,6
    |abc: TransposeChars = |abc /
    a|: TransposeChars = a| /
    |: TransposeChars = | /
    ab c|: TransposeWords 1 = c ab| / draw '> c ab|' at 0,6 to 0,6
    |ab cd ef: TransposeWords 2 = cd ab| ef / draw '> cd ab| ef' at 0,7 to 0,10
    ab cd ef|: TransposeWords 2 = ef cd ab| / draw '> ef cd ab|' at 0,10 to 0,10
    |w: TransposeWords 1 = w| / draw '> w|' at 0,3 to 0,3
    w|: TransposeWords 1 = w| /
    ab c|: TransposeWords 0 = ab c| /
    |: TransposeWords 1 = | /

    |one two: CapitalizeWord = One| two / draw '> One| two' at 0,5 to 0,9
    o|nE: CapitalizeWord = oNe| / draw '> oNe|' at 0,5 to 0,5
    ONE| TWO: DowncaseWord = ONE two| / draw '> ONE two|' at 0,9 to 0,9
    |one: UpcaseWord = ONE| / draw '> ONE|' at 0,5 to 0,5
    |éa: UpcaseWord = éA| / draw '> éA|' at 0,4 to 0,4
    a |-- b: UpcaseWord = a -- B| / draw '> a -- B|' at 0,8 to 0,8
    |12: UpcaseWord = 12| / draw '> 12|' at 0,4 to 0,4
    one|: UpcaseWord = one| /
    |--: UpcaseWord = |-- /
    |: CapitalizeWord = | /

    ab|: Indent WholeLine = ␠ ab| / draw '>   ab|' at 0,6 to 0,6
    a|b␊cd: Indent LineDown 1 = ␠ a|b␊  cd / draw '>   a|b␊  cd' at 0,5 to 1,4
    |: Indent ForwardWord 1 Start Vi = ␠ | / draw '>   |' at 0,4 to 0,4
    ␠ ab|: Dedent WholeLine = ab| / draw '> ab|' at 0,4 to 0,4
    ␠␠␠ ab|: Dedent WholeLine = ␠ ab| / draw '>   ab|' at 0,6 to 0,6
    ab|: Dedent WholeLine = ab| / draw '> ab|' at 0,4 to 0,4
    |: Dedent WholeLine = | / draw '> |' at 0,2 to 0,2

    ab|: Undo 1 = ab| /
    ab|: SelfInsert 1 c; Undo 1 = ab| / draw '> ab|' at 0,4 to 0,4
    ab|: SelfInsert 1 c; Undo 0 = ab| / draw '> ab|' at 0,4 to 0,4
    ab|: SelfInsert 1 +; SelfInsert 1 -; Undo 1 = ab+| / draw '> ab+|' at 0,5 to 0,5
    ab|: SelfInsert 1 +; SelfInsert 1 -; Undo 9 = ab| / draw '> ab|' at 0,4 to 0,4
    ab|: SelfInsert 1 c; Undo 1; Undo 1 = ab| /
    a|bc: Kill EndOfLine; Undo 1 = abc| / draw '> abc|' at 0,5 to 0,5
    ab␊|cd: Kill BeginningOfLine; Undo 1 = ab␊|cd / draw '> ab␊|cd' at 1,0 to 1,2

    abc|: TransposeChars; Undo 1 = abc| / draw '> abc|' at 0,5 to 0,5
    ab c|: TransposeWords 1; Undo 1 = ab c| / draw '> ab c|' at 0,6 to 0,6
    |w: TransposeWords 1; Undo 1 = w| /
    |one two: CapitalizeWord; Undo 1 = one| two / draw '> one| two' at 0,5 to 0,9
    ab|: Indent WholeLine; Undo 1 = |ab / draw '> |ab' at 0,2 to 0,4
    a|b␊cd: Indent LineDown 1; Undo 1 = ␠ ab␊|cd / draw '>   ab␊|cd' at 1,0 to 1,2
    ␠ ab|: Dedent WholeLine; Undo 1 = ␠ |ab / draw '>   |ab' at 0,4 to 0,6
    |: SelfInsert 1 a; SelfInsert 1 +; Undo 1; Undo 1 = | / draw '> |' at 0,2 to 0,2
";

// Characters written over others, if lines are drawn in part.
const WRITTEN_OVER: &str = "
    partial: yes = nothing
    a|bc: TransposeChars = ba|c / move 0,3 to 0,2; write over 'ba' 0,4
    abc|: TransposeChars = acb| / move 0,5 to 0,3; write over 'cb' 0,5
    ab␊c|d: TransposeChars = ab␊dc| / move 1,1 to 1,0; write over 'dc' 1,2
    ab|␊c: TransposeChars = a␊b|c / draw '> a␊b|c' at 1,1 to 1,2
    a|é: TransposeChars = éa| / draw '> éa|' at 0,4 to 0,4
    |ab: TransposeChars = |ab /

    columns: 6 = nothing
    ab|: TransposeChars = ba| / move 0,4 to 0,2; write over 'ba' 0,4
    abc|d: TransposeChars = abdc| / move 0,5 to 0,4; rest 'dc' at 1,0 to 1,0
";

pub(crate) const TABLES: [&str; 2] = [CHANGES, WRITTEN_OVER];
