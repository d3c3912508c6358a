//! Laws of the definitions, each proved as the contract of a function that does nothing.

ghost use Rattle.facl_script.specs.Laws.{WordsAreSpelled, JoinedWordsAreSplit, OddQuotesAreOpen, UnitsAreSpelled, FullUnitsComeFirst};

/// Proof only: a line has these words exactly if it spells them: white space, and then words that are each written in parts, as they are
/// or between two quotes, with white space between each two.
pub fn line_has_words_as_written()
    ensures { WordsAreSpelled }
{}

/// Proof only: words that each are as they are or between two quotes, with one space between each two, are split into just these.
pub fn words_joined_by_spaces_are_split_again()
    ensures { JoinedWordsAreSplit }
{}

/// Proof only: a quote is left open exactly if the quotes of the line are odd in number.
pub fn quote_is_open_where_odd()
    ensures { OddQuotesAreOpen }
{}

/// Proof only: a script is cut into these units exactly if they spell it, one right after another, with the lines of their texts and the LFs:
/// no byte is lost or belongs to two units. A unit's number is 1 and the LFs before it.
pub fn script_has_units_as_spelled()
    ensures { UnitsAreSpelled }
{}

/// Proof only: the full units of the front of a script are the first units of the script, whatever comes after it. So what a run has answered
/// that stops with a fault are the first units of its script.
pub fn full_units_come_first()
    ensures { FullUnitsComeFirst }
{}
