//! Laws of histories, of brackets and of completion. Each is the contract of a function that does
//! nothing.
ghost use Rattle.line_help.specs.Completion.{EscapesComeBack, CommonBeginningIsLongest};
ghost use Rattle.line_help.specs.Quotes.{UnclosedQuoteIsOpen};
ghost use Rattle.line_help.specs.Search.{NearestIsFound};
ghost use Rattle.line_help.specs.HistoryCourse.{Reload, ReloadAppended, TextKeepsUp};
ghost use Rattle.line_help.specs.Brackets.{OpeningIsMatched, ClosingIsMatched};
ghost use Rattle.line_help.specs.Validation.{ValidIsBalanced, IncompleteIsBegun, InvalidIsLost, MessageNames};

/// A saved text that isn't empty, loaded into a new history, gives the same entries as adding the
/// saved entries in order, none of them new. No entry may end in a carriage return.
pub fn reload()
    ensures { Reload }
{}

/// The same holds for a saved text followed by appended rows: it gives the same entries as adding
/// the saved ones and then the appended ones.
pub fn reload_appended()
    ensures { ReloadAppended }
{}

/// Under unchanged settings a saved text keeps up with the history. Lines may be added, and the
/// text may be saved again, appended to and loaded into a new history. If no entry is new, loading
/// the text once more gives the same entries, none of them new. No written entry may end in a
/// carriage return.
pub fn text_keeps_up()
    ensures { TextKeepsUp }
{}

/// A search of a history returns the nearest entry with the term, and the term's place in it: no
/// entry on the way has the term. It returns nothing if there is no such entry.
pub fn nearest_is_found()
    ensures { NearestIsFound }
{}

/// The match of an opening bracket is the one bracket that closes it: between the two the brackets
/// of their kind are balanced, whatever else is there.
pub fn opening_is_matched()
    ensures { OpeningIsMatched }
{}

/// The match of a closing bracket is the one bracket that opens it.
pub fn closing_is_matched()
    ensures { ClosingIsMatched }
{}

/// A text is valid if and only if its brackets are balanced.
pub fn valid_is_balanced()
    ensures { ValidIsBalanced }
{}

/// It is incomplete if and only if its brackets aren't balanced and some more text would balance
/// them.
pub fn incomplete_is_begun()
    ensures { IncompleteIsBegun }
{}

/// It is invalid, with a message, if and only if no more text would balance them.
pub fn invalid_is_lost()
    ensures { InvalidIsLost }
{}

/// A message is about the first bracket after which nothing can balance the text, a closing one. It
/// names that bracket if it is unpaired, and otherwise the innermost open bracket, which it doesn't
/// close.
pub fn message_names()
    ensures { MessageNames }
{}

/// An escaped text, unescaped, is the text again, if the escape character is itself escaped.
pub fn escapes_come_back()
    ensures { EscapesComeBack }
{}

/// The common prefix of texts is a text and a prefix of each; and each other text that is a prefix
/// of all is a prefix of it.
pub fn common_beginning_is_longest()
    ensures { CommonBeginningIsLongest }
{}

/// The quote found open at a text's end is the one that nothing closes and before which each quote
/// is closed. None is found if and only if all are closed.
pub fn unclosed_quote_is_open()
    ensures { UnclosedQuoteIsOpen }
{}
