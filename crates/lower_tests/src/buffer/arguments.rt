//! The arguments of a call in a table, each known by its form.

use line_buffer::{At, CharSearch, GraphemeClusterMode, RepeatCount, TabStops, Unit, Word};
use stand_ins::tables::{named, word_and_rest};

/// A call by its name, with what it was given, and what it is given by default.
///
/// - A number is the count, and a second one the column after the prompt.
/// - `fx`, `tx`, `Fx` and `Tx` are searches for the character `x`, as Vi has them.
/// - `tabs:8/80` draws tabs as blanks, with stops 8 columns apart on a display of 80.
/// - Words, their ends and modes go by their names.
#[derive(Clone, Copy)]
pub(crate) struct Arguments<'a> {
    pub name: &'a str,
    pub count: Option<RepeatCount>,
    pub column: RepeatCount,
    pub search: CharSearch,
    pub word: Word,
    pub at: At,
    pub mode: GraphemeClusterMode,
    pub stops: Option<TabStops>,
}

const WORDS: [(&str, Word); 3] = [("Big", Word::Big), ("Emacs", Word::Emacs), ("Vi", Word::Vi)];

const PLACES: [(&str, At); 3] = [
    ("Start", At::Start),
    ("BeforeEnd", At::BeforeEnd),
    ("AfterEnd", At::AfterEnd),
];

const MODES: [(&str, GraphemeClusterMode); 3] = [
    ("Unicode", GraphemeClusterMode::Unicode),
    ("WcWidth", GraphemeClusterMode::WcWidth),
    ("NoZwj", GraphemeClusterMode::NoZwj),
];

impl<'a> Arguments<'a> {
    pub(crate) fn of(call: &'a str) -> Self {
        let (name, words) = word_and_rest(call);
        let mut arguments = Arguments {
            name,
            count: None,
            column: 0,
            search: CharSearch::Forward(' '),
            word: Word::Emacs,
            at: At::Start,
            mode: GraphemeClusterMode::Unicode,
            stops: None,
        };
        for word in words.split_whitespace() {
            arguments.take(word);
        }
        arguments
    }

    fn take(&mut self, word: &str) {
        if let Ok(number) = word.parse::<RepeatCount>() {
            self.take_number(number);
        } else if let Some(search) = search_of(word) {
            self.search = search;
        } else if let Some(stops) = stops_of(word) {
            self.stops = Some(stops);
        } else {
            self.take_word(word);
        }
    }

    fn take_number(&mut self, number: RepeatCount) {
        if self.count.is_none() {
            self.count = Some(number);
        } else {
            self.column = number;
        }
    }

    fn take_word(&mut self, word: &str) {
        self.word = named(&WORDS, word).unwrap_or(self.word);
        self.at = named(&PLACES, word).unwrap_or(self.at);
        self.mode = named(&MODES, word).unwrap_or(self.mode);
    }

    /// The count, 1 if none was given.
    pub(crate) fn n(&self) -> RepeatCount {
        self.count.unwrap_or(1)
    }
}

fn search_of(word: &str) -> Option<CharSearch> {
    let mut chars = word.chars();
    let kind = chars.next()?;
    let wanted = match chars.next()? {
        '␊' => '\n',
        '␠' => ' ',
        shown => shown,
    };
    if chars.next().is_some() {
        return None;
    }
    match kind {
        'f' => Some(CharSearch::Forward(wanted)),
        't' => Some(CharSearch::ForwardBefore(wanted)),
        'F' => Some(CharSearch::Backward(wanted)),
        'T' => Some(CharSearch::BackwardAfter(wanted)),
        _ => None,
    }
}

/// Where tabs end, if they are drawn as blanks.
fn stops_of(word: &str) -> Option<TabStops> {
    let (apart, columns) = word.strip_prefix("tabs:")?.split_once('/')?;
    Some(TabStops {
        columns: columns.parse::<Unit>().ok()?,
        apart: apart.parse::<u8>().ok()?,
    })
}
