//! How the syntax of a tool is written: its flags, its options with one value, and its operands. A file that writes one
//! imports the types of the rows too.

/// A flag or an option with a letter and a long name; `of_text` is one that reads the lines after the line.
#[macro_export]
macro_rules! both {
    ($letter:literal, $name:literal) => {
        OptionRow {
            id: $name,
            short: Some($letter),
            long: Some($name),
            fallback: None,
            is_text: false,
        }
    };
    ($letter:literal, $name:literal, of_text) => {
        OptionRow {
            id: $name,
            short: Some($letter),
            long: Some($name),
            fallback: None,
            is_text: true,
        }
    };
}

/// A flag or an option with a letter alone, given as a character and as a text.
#[macro_export]
macro_rules! by_letter {
    ($letter:literal, $id:literal) => {
        OptionRow {
            id: $id,
            short: Some($letter),
            long: None,
            fallback: None,
            is_text: false,
        }
    };
}

/// A flag or an option with a long name alone, and for an option its value if it is absent.
#[macro_export]
macro_rules! by_name {
    ($name:literal) => {
        OptionRow {
            id: $name,
            short: None,
            long: Some($name),
            fallback: None,
            is_text: false,
        }
    };
    ($name:literal, of_text) => {
        OptionRow {
            id: $name,
            short: None,
            long: Some($name),
            fallback: None,
            is_text: true,
        }
    };
    ($name:literal or $value:literal) => {
        OptionRow {
            id: $name,
            short: None,
            long: Some($name),
            fallback: Some($value),
            is_text: false,
        }
    };
}

/// An operand that has to be given, once.
#[macro_export]
macro_rules! one {
    ($id:literal) => {
        OperandRow {
            id: $id,
            is_required: true,
            is_repeated: false,
        }
    };
}

/// Operands of which at least one has to be given.
#[macro_export]
macro_rules! some {
    ($id:literal) => {
        OperandRow {
            id: $id,
            is_required: true,
            is_repeated: true,
        }
    };
}

/// Operands of any number.
#[macro_export]
macro_rules! any {
    ($id:literal) => {
        OperandRow {
            id: $id,
            is_required: false,
            is_repeated: true,
        }
    };
}

pub(crate) use any;
pub(crate) use both;
pub(crate) use by_letter;
pub(crate) use by_name;
pub(crate) use one;
pub(crate) use some;
