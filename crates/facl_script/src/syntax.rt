//! A syntax: the words that a tool takes, or the program.

/// A flag, or an option with one value.
#[derive(Clone, Copy)]
pub struct OptionRow {
    /// The long name, or else the letter.
    pub id: &'static str,
    /// The letter of `-n`.
    pub short: Option<char>,
    /// The name of `--name`.
    pub long: Option<&'static str>,
    /// The value of an option that is absent.
    pub fallback: Option<&'static str>,
    /// Whether its value is `-`, and the lines after the line are its text.
    pub is_text: bool,
}

/// An operand, or the operands at the end of a line.
#[derive(Clone, Copy)]
pub struct OperandRow {
    /// What the operand is called.
    pub id: &'static str,
    /// Whether one has to be given.
    pub is_required: bool,
    /// Whether more than one may be given.
    pub is_repeated: bool,
}

/// The words that a tool takes, or the program.
#[derive(Clone, Copy)]
pub struct Syntax {
    /// The flags.
    pub flags: &'static [OptionRow],
    /// The options, each with one value.
    pub options: &'static [OptionRow],
    /// The operands, in their order.
    pub operands: &'static [OperandRow],
}
