//! Why lines are refused, and which tools there are: laws of the definitions, each proved as the contract of a function
//! that does nothing.

ghost use Rattle.std.specs.Prelude.{◌≡◌, ℕ, List, Some, is_some, true};
ghost use Rattle.std.specs.Borrow.{Bor};
ghost use Rattle.acl_tree.specs.State.{State};
ghost use Rattle.acl_tree.specs.declared.command.Command.{Command};
ghost use Rattle.acl_tree.specs.declared.command.Command.TheVariants as commands;
ghost use Rattle.path_map.specs.Entries.{IsInOrder};
ghost use Rattle.facl.specs.CommandFaults.{IsRefusedAs};
ghost use Rattle.facl_tools.specs.Operands.{name_meant};
ghost use Rattle.facl_tools.specs.Replies.{done};
ghost use Rattle.facl.specs.ToolParts.{IsAtFault, place, rank};
ghost use Rattle.facl.specs.FirstPart.{IsRefusedForFirst};
ghost use Rattle.acl_rights.specs.Deciders.{Judging};
ghost use Rattle.facl.specs.ToolLines.{answered};
ghost use Rattle.facl.specs.Tools.{row_for, tool_name, tool_named};
ghost use Rattle.facl.specs.declared.tools.Tool.{Tool};
ghost use Rattle.facl_tools.specs.Useradd.{new_user};
ghost use Rattle.facl.specs.declared.tools.ToolLine.{ToolLine};
ghost use Rattle.facl.specs.declared.tools.ToolLine.TheVariants as lines;
ghost use Rattle.facl_tools.specs.declared.gpasswd.GpasswdLine.{GpasswdLine};
ghost use Rattle.facl_tools.specs.declared.load.LoadLine.{LoadLine};
ghost use Rattle.facl_tools.specs.declared.useradd.UseraddLine.{UseraddLine};
ghost use Rattle.facl_tools.specs.declared.userdel.UserdelLine.{UserdelLine};
ghost use Rattle.facl_tools.specs.declared.usermod.UsermodLine.{UsermodLine};

use acl_tree::commands_are_refused_for_their_first_fault;

/// Proof only: which parts of a line are at fault is defined for each part by itself, without an order. A line is
/// refused exactly if one of its parts is at fault, and for the first of those in one order: its texts, an entry that
/// is both removed and modified, its operands by their places, the user that it names, the files that it looks at, and
/// what it does. Neither a judge's verdict nor the state after the texts were loaded matters.
pub fn tool_lines_are_refused_for_their_first_fault()
    ensures { (judge : Judging) (loaded s : State) (line : ToolLine) (text : List ℕ)
        → IsRefusedForFirst rank place (IsAtFault s line text) (answered judge loaded s line text) }
{}

/// Proof only: what a line does is refused exactly if a fault applies to its command, and for the first of these, in the
/// order of [`commands_are_refused_for_their_first_fault`]. So is a line of load, gpasswd, usermod, useradd and userdel,
/// which has no other part: no such user, no such group, no member, and so on.
pub fn lines_are_refused_for_the_first_fault_of_their_command()
    ensures each { (s : State) (command : Command) → IsInOrder s.tree.files → IsRefusedAs s command (done s command) }
    ensures load { (judge : Judging) (loaded s : State) (line : LoadLine) (bytes : Bor (List ℕ)) → IsInOrder s.tree.files
        → IsRefusedAs s (commands.Load line.table bytes) (answered judge loaded s (lines.Load line) bytes.now) }
    ensures gpasswd { (judge : Judging) (loaded s : State) (line : GpasswdLine) (text : List ℕ) → IsInOrder s.tree.files
        → IsRefusedAs s (commands.Gpasswd (name_meant line.user) (name_meant line.group) line.change) (answered judge loaded s (lines.Gpasswd line) text) }
    ensures usermod { (judge : Judging) (loaded s : State) (line : UsermodLine) (text : List ℕ) → IsInOrder s.tree.files
        → IsRefusedAs s (commands.Usermod (name_meant line.user) (name_meant line.group)) (answered judge loaded s (lines.Usermod line) text) }
    ensures useradd { (judge : Judging) (loaded s : State) (line : UseraddLine) (text : List ℕ) → IsInOrder s.tree.files
        → IsRefusedAs s (commands.Useradd (new_user line)) (answered judge loaded s (lines.Useradd line) text) }
    ensures userdel { (judge : Judging) (loaded s : State) (line : UserdelLine) (text : List ℕ) → IsInOrder s.tree.files
        → IsRefusedAs s (commands.Userdel (name_meant line.user)) (answered judge loaded s (lines.Userdel line) text) }
{
    commands_are_refused_for_their_first_fault();
}

/// Proof only: each tool has a row in the table of tools, and is found by its name: no other tool has that.
#[tactic(auto, unfolding(crate::specs::Tools::row_for, crate::specs::Tools::row_of, crate::specs::Tools::tool_named))]
pub fn each_tool_has_its_row()
    ensures row { (tool : Tool) → is_some (row_for tool) ≡ true }
    ensures name { (tool : Tool) → tool_named (tool_name tool) ≡ Some tool }
{}
