//! A judge of the user's own.

ghost use Rattle.std.specs.Prelude.{◌≡◌, Some};
ghost use Rattle.acl_entry.specs.declared.entry.Key.TheVariants.{Owner};
ghost use Rattle.acl_rights_tests.specs.Verdicts.{owner_alone, owner_alone_local};

use acl_entry::{Key, Label, Requests, Subject};
use acl_rights::Judge;

/// Grants the owner all requests, and nobody else any.
#[derive(Drop)]
pub struct OwnerAlone {
    asked: u64,
}

impl OwnerAlone {
    /// Returns a judge that has decided no verdict yet.
    pub fn new() -> OwnerAlone
        ensures { result.asked ≡ 0 }
    {
        OwnerAlone { asked: 0 }
    }
}

impl Judge for OwnerAlone {
    ghost verdict_of = { owner_alone };

    ghost decider_of = { λ _ _. Some Owner };

    ghost asked_of = { λ judge. judge.asked };

    fn verdict(&mut self, subject: &Subject, label: &Label) -> Requests {
        self.asked += 1;
        if subject.uid() == label.owner {
            Requests(0xff)
        } else {
            Requests(0)
        }
    }

    fn sole_key(_subject: &Subject, _label: &Label) -> Option<Key> {
        Some(Key::Owner)
    }

    fn asked(&self) -> u64 {
        self.asked
    }

    ghost local = { owner_alone_local };
}
