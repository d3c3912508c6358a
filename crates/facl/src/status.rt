//! How a run ends that answers its whole script.

ghost use Rattle.std.specs.Prelude.{◌≡◌, if◌then◌else◌};
ghost use Rattle.facl.specs.Headline.{has_refused};

/// How a run ends that answers its whole script.
#[derive(Clone, Copy, Debug, PartialEq, Eq)]
pub enum Status {
    /// Every line was accepted.
    Accepted,
    /// Some line was refused.
    Refused,
}

impl Status {
    /// Returns how a run ends, by whether a line was refused.
    pub(crate) fn of(is_refused: bool) -> Status
        ensures { has_refused result ≡ is_refused }
    {
        if is_refused {
            Status::Refused
        } else {
            Status::Accepted
        }
    }

    /// Returns the status that a program ends with: 1 if a line was refused, else 0.
    pub fn code(self) -> u8
        ensures { result ≡ if has_refused self then 1 else 0 }
    {
        match self {
            Status::Accepted => 0,
            Status::Refused => 1,
        }
    }
}
