//! Laws of the definitions, and why commands are refused; each proved as the contract of a function that does nothing.

ghost use Rattle.acl_tree.specs.Laws.{EachFileIsEdited, EachFileIsRestored, EachFileKeepsMaskRules, UnnamedFilesStay, NewFileIsRemoved, NewUserIsRemoved, NewUserIsRemovedWhole, RestoreOfWhatIsChangesNothing};
ghost use Rattle.acl_tree.specs.Refusals.{CommandsAreRefusedForFirst};

/// Proof only: an edit and a restore make each of their files what the edit of that one file makes of it, and leave
/// every other file as it was. So the rules on the masks that a line leaves are true at each file of a recursion.
pub fn each_file_is_edited()
    ensures edit { EachFileIsEdited }
    ensures restore { EachFileIsRestored }
    ensures masks { EachFileKeepsMaskRules }
{}

/// Proof only: what a command does not name stays as it is: at a path that is no operand, is not below one with
/// recursion, is of no record and is not the new file's, the same node is recorded as before, or none as before. A
/// load of a dump names every path.
pub fn unnamed_files_stay()
    ensures { UnnamedFilesStay }
{}

/// Proof only: a new file that is removed again leaves the state as it was: a plain file, or with recursion also
/// a directory.
pub fn new_file_is_removed()
    ensures { NewFileIsRemoved }
{}

/// Proof only: a user that is added and removed again, under a name that no group's row has, leaves the files and
/// the rows of users and groups as they were, and the groups loaded or not. But users count as loaded from then on, so
/// only a state in which they were loaded is the same again.
pub fn new_user_is_removed()
    ensures rows { NewUserIsRemoved }
    ensures whole { NewUserIsRemovedWhole }
{}

/// Proof only: a restore of records that contain what their files are changes nothing.
pub fn restore_of_what_is_changes_nothing()
    ensures { RestoreOfWhatIsChangesNothing }
{}

/// Proof only: which faults apply to a state and a command is defined for each fault by itself, without an order. A
/// command is refused exactly if one of them applies, and the one reported is the first of those in one order of the
/// kinds of faults; of the operands, and of the files that are edited, the first that is refused decides.
pub fn commands_are_refused_for_their_first_fault()
    ensures { CommandsAreRefusedForFirst }
{}
