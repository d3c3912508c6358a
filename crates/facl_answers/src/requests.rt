//! The requests that a user is granted, as a line.

ghost use Rattle.acl_names.specs.Appends.{Appends, AppendsWhole};
ghost use Rattle.facl_answers.specs.Requests.{request_text, requests_granted, requests_text, requests_line};

use acl_entry::{Perm, Requests};
use facl_output::end_line;
use std::alloc::AllocError;

/// The numbers of the requests other than none.
pub(crate) const NUMBERS: [u8; 7] = [1, 2, 3, 4, 5, 6, 7];

/// Adds a request that is granted, after a space unless it is the first.
fn push_request(text: &mut Vec<u8>, request: Perm, is_first: bool) -> Result<(), AllocError>
    ensures { Appends result text.old text.new (request_text is_first request) }
{
    if !is_first {
        text.push(b' ')?;
    }
    text.extend_from_slice(&request.text())?;
    Ok(())
}

/// Adds the requests that are granted, with a space between each two, or `none`.
fn push_requests(text: &mut Vec<u8>, granted: Requests) -> Result<(), AllocError>
    ensures { Appends result text.old text.new (requests_text (requests_granted granted)) }
{
    let mut is_first = true;
    for number in &NUMBERS {
        if let Some(request) = Perm::from_number(*number) {
            if granted.has(request) {
                push_request(text, request, is_first)?;
                is_first = false;
            }
        }
    }
    if is_first {
        text.extend_from_slice(b"none")?;
    }
    Ok(())
}

/// Adds the line of what a user is granted.
fn push_line(text: &mut Vec<u8>, granted: Requests) -> Result<(), AllocError>
    ensures { Appends result text.old text.new (requests_line granted) }
{
    push_requests(text, granted)?;
    end_line(text)
}

/// Adds the line of the requests that are granted: each of them other than none, by its permissions, in rising number
/// with a space between each two, or `none`. If memory runs out, nothing is added.
pub fn append_requests(text: &mut Vec<u8>, granted: Requests) -> Result<(), AllocError>
    ensures { AppendsWhole result text.old text.new (requests_line granted) }
{
    let before = text.len();
    if let Err(refused) = push_line(text, granted) {
        text.truncate(before);
        return Err(refused);
    }
    Ok(())
}
