//! Laws of the definitions, each proved as the contract of a function that does nothing.

ghost use Rattle.acl_people.specs.Laws.{AddedMemberIsRemoved, AddedUserIsRemoved, GroupHeldOtherwiseStays};

/// Proof only: a member that is added and removed again leaves all rows as they were, where the group's row did not name
/// the user.
pub fn added_member_is_removed()
    ensures { AddedMemberIsRemoved }
{}

/// Proof only: a user that is added and removed again leaves all rows as they were, where no group's row names the user.
pub fn added_user_is_removed()
    ensures { AddedUserIsRemoved }
{}

/// Proof only: where the primary group or another row gives a user the group's id, no user's groups change with the
/// membership of its row.
pub fn group_held_otherwise_stays()
    ensures { GroupHeldOtherwiseStays }
{}
