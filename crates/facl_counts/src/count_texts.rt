//! The parts that lines of counts share: a number of files, a user, and a path.

ghost use Rattle.acl_names.specs.Appends.{Appends};
ghost use Rattle.facl_answers.specs.Answers.{line};
ghost use Rattle.facl_counts.specs.CountTexts.{count_text};

use itoa::Buffer;
use std::alloc::AllocError;

/// Adds a number of files and a user, with a space after each.
pub(crate) fn push_count(text: &mut Vec<u8>, count: u64, user: &[u8]) -> Result<(), AllocError>
    ensures { Appends result text.old text.new (count_text count user.now) }
{
    let mut buffer = Buffer::new();
    text.extend_from_slice(buffer.format(count).as_bytes())?;
    text.push(b' ')?;
    text.extend_from_slice(user)?;
    text.push(b' ')?;
    Ok(())
}

/// Adds a path, and the end of the line.
pub(crate) fn push_path(text: &mut Vec<u8>, path: &[u8]) -> Result<(), AllocError>
    ensures { Appends result text.old text.new (line path.now) }
{
    text.extend_from_slice(path)?;
    text.push(b'\n')?;
    Ok(())
}
