//! Motions of a line: by clusters, to the ends of rows, by words and by character searches.

const PREVIOUS_WORD_STARTS: &str = "
    'alpha ,beta/rho; mu|' move_to_prev_word Vi 1 = true 'alpha ,beta/rho; |mu'
                           move_to_prev_word Vi 1 = true 'alpha ,beta/rho|; mu'
                           move_to_prev_word Vi 1 = true 'alpha ,beta/|rho; mu'
                           move_to_prev_word Vi 1 = true 'alpha ,beta|/rho; mu'
                           move_to_prev_word Vi 1 = true 'alpha ,|beta/rho; mu'
                           move_to_prev_word Vi 1 = true 'alpha |,beta/rho; mu'
                           move_to_prev_word Vi 1 = true '|alpha ,beta/rho; mu'
                           move_to_prev_word Vi 1 = false '|alpha ,beta/rho; mu'
    ";

const EARLIER_WORDS: &str = "
    'alpha ,beta/rho; mu|' move_to_prev_word Vi 6 = true 'alpha |,beta/rho; mu'
    'alpha ,beta/rho; mu|' move_to_prev_word Vi 7 = true '|alpha ,beta/rho; mu'
    'alpha ,beta/rho; mu|' move_to_prev_word Vi 65535 = true '|alpha ,beta/rho; mu'
    'alpha ,beta/rho; mu|' move_to_prev_word Big 2 = true 'alpha |,beta/rho; mu'
    'alpha ,beta/rho; mu|' move_to_prev_word Emacs 2 = true 'alpha ,beta/|rho; mu'
    'alpha ,be|ta/rho; mu' move_to_prev_word Emacs 1 = true 'alpha ,|beta/rho; mu'
    'a_b c|'               move_to_prev_word Vi 2 = true '|a_b c'
    'a_b c|'               move_to_prev_word Emacs 2 = true 'a_|b c'
    'one␊t|wo'             move_to_prev_word Emacs 2 = true '|one␊two'
    'αβ γδ|'               move_to_prev_word Emacs 1 = true 'αβ |γδ'
    '  o|ne'               move_to_prev_word Vi 1 = true '  |one'
    '  |one'               move_to_prev_word Vi 1 = true '|  one'
    ";

const NEXT_WORD_PLACES: &str = "
    '|one two'     move_to_next_word AfterEnd Emacs 1 = true 'one| two'
    '|one two'     move_to_next_word Start Vi 1 = true 'one |two'
    '|one two'     move_to_next_word BeforeEnd Vi 1 = true 'on|e two'
    'on|e two'     move_to_next_word BeforeEnd Vi 1 = true 'one tw|o'
    '|one two'     move_to_next_word BeforeEnd Emacs 1 = true 'one| two'
    '|one two'     move_to_next_word Start Emacs 1 = true 'one |two'
    '|one two'     move_to_next_word Start Emacs 2 = true 'one two|'
    '|one two'     move_to_next_word AfterEnd Emacs 2 = true 'one two|'
    '|one two'     move_to_next_word AfterEnd Vi 65535 = true 'one two|'
    '|one two'     move_to_next_word Start Big 65535 = true 'one tw|o'
    '|foo-bar baz' move_to_next_word Start Big 1 = true 'foo-bar |baz'
    '|foo-bar baz' move_to_next_word Start Vi 1 = true 'foo|-bar baz'
    '|foo-bar baz' move_to_next_word Start Vi 2 = true 'foo-|bar baz'
    '|foo-bar baz' move_to_next_word AfterEnd Big 1 = true 'foo-bar| baz'
    '|foo-bar baz' move_to_next_word BeforeEnd Big 1 = true 'foo-ba|r baz'
    '|foo-bar baz' move_to_next_word BeforeEnd Vi 2 = true 'foo|-bar baz'
    '|αβ γδ'       move_to_next_word AfterEnd Emacs 1 = true 'αβ| γδ'
    '|a_b c'       move_to_next_word Start Vi 1 = true 'a_b |c'
    '|a_b c'       move_to_next_word AfterEnd Emacs 1 = true 'a|_b c'
    '|_\u{301}a'   move_to_next_word Start Vi 1 = true '_\u{301}|a'
    ";

const NO_LATER_WORD: &str = "
    'one |two' move_to_next_word Start Vi 1 = true 'one tw|o'
               move_to_next_word Start Vi 1 = false 'one tw|o'
               move_to_next_word BeforeEnd Big 1 = false 'one tw|o'
               move_to_next_word BeforeEnd Emacs 1 = true 'one two|'
               move_to_next_word AfterEnd Emacs 1 = false 'one two|'
    ";

const COUNTS_OF_ZERO: &str = "
    'one |two' move_forward 0 = false 'one |two'
               move_backward 0 = false 'one |two'
               move_to_prev_word Emacs 0 = false 'one |two'
               move_to_next_word Start Big 0 = false 'one |two'
               move_to_next_word AfterEnd Emacs 0 = false 'one |two'
               move_to fo 0 = false 'one |two'
               move_to Fo 0 = false 'one |two'
               next_pos 0 = None 'one |two'
    ";

const CLUSTERS_FORWARD: &str = "
    '|abc'         next_pos 1 = Some(1) '|abc'
                   move_forward 1 = true 'a|bc'
    'a|bc'         next_pos 2 = Some(3) 'a|bc'
                   move_forward 2 = true 'abc|'
    'a|bc'         next_pos 65535 = Some(3) 'a|bc'
                   move_forward 65535 = true 'abc|'
    '|e\u{301}x'   next_pos 1 = Some(3) '|e\u{301}x'
                   move_forward 1 = true 'e\u{301}|x'
    'e|\u{301}x'   next_pos 1 = Some(3) 'e|\u{301}x'
                   move_forward 1 = true 'e\u{301}|x'
    '|🇷🇺🇸🇹'        next_pos 1 = Some(8) '|🇷🇺🇸🇹'
                   move_forward 1 = true '🇷🇺|🇸🇹'
    '🇷|🇺🇸🇹'        next_pos 1 = Some(12) '🇷|🇺🇸🇹'
                   move_forward 1 = true '🇷🇺🇸|🇹'
    '|👩\u{200D}🔬a' next_pos 1 = Some(11) '|👩\u{200D}🔬a'
                   move_forward 1 = true '👩\u{200D}🔬|a'
    'a|␍␊b'        next_pos 1 = Some(3) 'a|␍␊b'
                   move_forward 1 = true 'a␍␊|b'
    'a␍|␊b'        next_pos 1 = Some(3) 'a␍|␊b'
                   move_forward 1 = true 'a␍␊|b'
    'abc|'         move_forward 1 = false 'abc|'
                   next_pos 1 = None 'abc|'
    ";

const CLUSTERS_BACKWARD: &str = "
    'e\u{301}|'    move_backward 1 = true '|e\u{301}'
    'abc|'         move_backward 1 = true 'ab|c'
    'abc|'         move_backward 2 = true 'a|bc'
    'ab|c'         move_backward 65535 = true '|abc'
    'xe|\u{301}'   move_backward 1 = true 'x|e\u{301}'
    '🇷🇺🇸🇹|'        move_backward 1 = true '🇷🇺|🇸🇹'
    '🇷🇺🇸|🇹'        move_backward 1 = true '🇷🇺|🇸🇹'
    'a👩\u{200D}🔬|' move_backward 1 = true 'a|👩\u{200D}🔬'
    'a␍␊|b'        move_backward 1 = true 'a|␍␊b'
    'a␍|␊b'        move_backward 1 = true 'a|␍␊b'
    '|abc'         move_backward 1 = false '|abc'
    ";

const ROW_STARTS_AND_ENDS: &str = "
    '|one␊two␍␊three' move_home = false '|one␊two␍␊three'
                      move_end = true 'one|␊two␍␊three'
    'one|␊two␍␊three' move_home = true '|one␊two␍␊three'
                      move_end = true 'one|␊two␍␊three'
    'one␊|two␍␊three' move_home = false 'one␊|two␍␊three'
                      move_end = true 'one␊two␍|␊three'
    'one␊t|wo␍␊three' move_home = true 'one␊|two␍␊three'
                      move_end = true 'one␊two␍|␊three'
    'one␊two␍|␊three' move_home = true 'one␊|two␍␊three'
                      move_end = true 'one␊two␍|␊three'
    'one␊two␍␊th|ree' move_home = true 'one␊two␍␊|three'
                      move_end = true 'one␊two␍␊three|'
    'a␊|␊b'           move_home = false 'a␊|␊b'
                      move_end = false 'a␊|␊b'
    '|'               move_home = false '|'
                      move_end = false '|'
    ";

const BUFFER_ENDS: &str = "
    'one␊|two' move_buffer_start = true '|one␊two'
               move_buffer_start = false '|one␊two'
               move_buffer_end = true 'one␊two|'
               move_buffer_end = false 'one␊two|'
               is_cursor_at_end = true 'one␊two|'
    ";

const CHARACTER_SEARCHES: &str = "
    '|abcabc'    move_to fc 1 = true 'ab|cabc'
    '|abcabc'    move_to fc 2 = true 'abcab|c'
    '|abcabc'    move_to fc 65535 = true 'abcab|c'
    '|abcabc'    move_to fa 1 = true 'abc|abc'
    '|abcabc'    move_to tc 1 = true 'a|bcabc'
    'abcabc|'    move_to Fa 1 = true 'abc|abc'
    'abcabc|'    move_to Fa 2 = true '|abcabc'
    'abc|abc'    move_to Fa 1 = true '|abcabc'
    'abcabc|'    move_to Ta 1 = true 'abca|bc'
    'abcabc|'    move_to Tc 1 = true 'abcabc|'
    '|abcabc'    move_to fz 1 = false '|abcabc'
    '|abcabc'    move_to Fa 1 = false '|abcabc'
    'abcab|c'    move_to fc 1 = false 'abcab|c'
    'abcabc|'    move_to fc 1 = false 'abcabc|'
    '|aßcß'      move_to fß 1 = true 'a|ßcß'
    '|aßcß'      move_to tß 2 = true 'aß|cß'
    'aßcß|'      move_to Tß 2 = true 'aß|cß'
    '|e\u{301}e' move_to fe 1 = true 'e\u{301}|e'
    '|e\u{301}e' move_to f\u{301} 1 = false '|e\u{301}e'
    '|e\u{301}x' move_to tx 1 = true 'e|\u{301}x'
    ";

const ENDS_OF_INPUT: &str = "
    '|'         is_end_of_input = true '|'
    '|a ␊'      is_end_of_input = false '|a ␊'
    'a| ␊'      is_end_of_input = true 'a| ␊'
    'a ␊|'      is_end_of_input = true 'a ␊|'
    'a|\u{A0}b' is_end_of_input = false 'a|\u{A0}b'
    ";

pub(crate) const TABLES: [&str; 11] = [
    PREVIOUS_WORD_STARTS,
    EARLIER_WORDS,
    NEXT_WORD_PLACES,
    NO_LATER_WORD,
    COUNTS_OF_ZERO,
    CLUSTERS_FORWARD,
    CLUSTERS_BACKWARD,
    ROW_STARTS_AND_ENDS,
    BUFFER_ENDS,
    CHARACTER_SEARCHES,
    ENDS_OF_INPUT,
];
