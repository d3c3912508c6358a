//! Why lines are refused, and for which lines memory ran out: laws of the definitions, each proved as the contract of
//! a function that does nothing.

ghost use Rattle.std.specs.Prelude.{◌≡◌, false};
ghost use Rattle.facl_script.specs.Units.{ScriptUnit};
ghost use Rattle.acl_rights.specs.Deciders.{Judging};
ghost use Rattle.facl.specs.Laws.{NoMemoryIsNoFault, NoMemoryIsSaid};
ghost use Rattle.facl.specs.LineParts.{IsAnsweredByFirst};
ghost use Rattle.acl_rights.specs.declared.indexed.States.{States};
ghost use Rattle.facl.specs.Units.{is_silent};

/// Proof only: which parts of a line are at fault is defined for each part by itself, without an order: its length,
/// its bytes, its quotes, its tool, the text after it, its words, and each part of what it means; neither a judge's
/// verdict nor the state after the texts were loaded matters. A line that is neither blank nor a comment is refused
/// exactly if one of them is at fault, and for the first of those in one order.
pub fn lines_are_refused_for_their_first_fault()
    ensures { (judge : Judging) (w : States) (u : ScriptUnit) → is_silent u.line ≡ false → IsAnsweredByFirst judge w u }
{}

/// Proof only: no line has as its own fault that memory ran out: by its definition it has a reply, or another fault. So
/// only a line for which memory ran out is refused with that one.
pub fn no_memory_is_no_fault_of_a_line()
    ensures { NoMemoryIsNoFault }
{}

/// Proof only: if no line of a session's messages ends in `: facl: no memory`, memory ran out for none of its lines:
/// what it writes is then what the session writes for which memory never runs out.
pub fn session_says_where_memory_ran_out()
    ensures { NoMemoryIsSaid }
{}
