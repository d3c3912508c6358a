//! The session of a script: its states with their indexes, and the output and the message of the last line. Lines are
//! answered one by one.

ghost use Rattle.std.specs.Prelude.{◌≡◌, ℕ, ◌+◌, ◌≤◌, [], ◌∷◌, true, false, map, string_bytes, IfOk, OnOk, OnErr, if◌then◌else◌};
ghost use Rattle.facl_script.specs.Units.{ScriptUnit, UnitText};
ghost use Rattle.facl_script.specs.Held.{IsTextHeld, IsUnitHeld};
ghost use Rattle.facl_tools.specs.TextWords.{line_asks};
ghost use Rattle.acl_rights.specs.Deciders.{judging};
ghost use Rattle.acl_rights.specs.Costs.{all_pairs};
ghost use Rattle.acl_rights.specs.States.{IsPrepared, from_start};
ghost use Rattle.facl_output.specs.Messages.{warning};
ghost use Rattle.facl_tools.specs.Replies.{reply_of};
ghost use Rattle.facl.specs.Costs.{IsReady, IsReadyAfter};
ghost use Rattle.facl.specs.Counted.{accepted, refused, answer_of, answer_of_words, answered};
ghost use Rattle.facl.specs.Units.{words_of_line, reply, tool_word};
ghost use Rattle.facl_script.specs.Run.{IsAnswer};
ghost use Rattle.facl.specs.Sessions.{states_of, out_of, err_of, ran_out_of_memory, IsQuiet, Answers};

use crate::line::{is_silent, tool_reply, words_of_line};
use crate::tools::Tool;
use acl_rights::{IndexedStates, Judge, States};
use acl_tree::State;
use facl_output::{LineFault, ReservedMessage, push_message, push_warning};
use facl_script::{HeldLine, HeldUnit, Session};
use facl_tools::{Effect, asks_for_text};
use std::alloc::{AllocError, Global};

/// The states of a script with their indexes, and the output and the message of its last line.
#[derive(Drop)]
pub(crate) struct FaclSession<J: Judge> {
    alloc: Global,
    indexed_states: IndexedStates<J>,
    out: Vec<u8>,
    err: Vec<u8>,
    reserved_message: ReservedMessage,
    lacks_memory: bool,
}

/// Writes the warning of a line, if it warns.
fn warning_if(alloc: Global, warns: bool, number: u64) -> Result<Vec<u8>, AllocError>
    ensures { IfOk result (λ text. text.items ≡ (if warns then warning number else [])) }
{
    let mut text = Vec::new(alloc);
    if warns {
        push_warning(&mut text, number)?;
    }
    Ok(text)
}

impl<J: Judge> FaclSession<J> {
    /// Starts a session at a state: the judge is asked about every user and every file.
    pub fn new(alloc: Global, judge: &mut J, state: State) -> Result<FaclSession<J>, AllocError>
        requires { J.asked_of judge.old ≡ 0 }
        ensures state { IfOk result (λ facl. states_of facl ≡ from_start state) }
        ensures ready { OnOk result (IsReady (J.asked_of judge.new) 1) }
        ensures asked { OnOk result (J.asked_of judge.new ≡ all_pairs state) }
        ensures at_most { J.asked_of judge.new ≤ all_pairs state }
    {
        let reserved_message = ReservedMessage::new(alloc)?;
        let indexed_states = IndexedStates::new(alloc, judge, state)?;
        Ok(FaclSession {
            alloc,
            indexed_states,
            out: Vec::new(alloc),
            err: Vec::new(alloc),
            reserved_message,
            lacks_memory: false,
        })
    }

    /// Discards the output and the message of the last line.
    pub fn fall_silent(&mut self)
        ensures quiet { IsQuiet self.new }
        ensures indexed_states { self.new.indexed_states ≡ self.old.indexed_states }
    {
        self.out.clear();
        self.err.clear();
        self.lacks_memory = false;
    }

    /// Refuses a line. The message of a line for which memory ran out has its room from the start of the session.
    fn refuse(&mut self, number: u64, tool: &[u8], fault: &LineFault)
        requires { IsQuiet self.old }
        ensures answer { (asked : ℕ) → Answers number (refused number tool.now fault.now (states_of self.old)) self.old self.new asked asked true }
        ensures memory { fault.now ≡ LineFault.NoMemory → ran_out_of_memory self.new ≡ true }
        ensures indexed_states { self.new.indexed_states ≡ self.old.indexed_states }
    {
        let has_message = !matches!(fault, LineFault::NoMemory)
            && push_message(&mut self.err, number, tool, fault).is_ok();
        if !has_message {
            self.lacks_memory = true;
            self.reserved_message.put_no_memory(number);
        }
    }

    /// Does what an accepted line does, and keeps its output and its warning. If memory runs out, nothing is done.
    fn apply_effect(
        &mut self,
        judge: &mut J,
        number: u64,
        loads: bool,
        effect: Effect,
    ) -> Result<(), AllocError>
        requires quiet { IsQuiet self.old }
        requires ready { IsReady (J.asked_of judge.old) number }
        requires prepared { IsPrepared (states_of self.old).now effect.staged }
        ensures answer { OnOk result (IsAnswer (accepted number loads (states_of self.old) (reply_of (states_of self.old).now effect))
            (states_of self.new) (J.asked_of judge.old) (J.asked_of judge.new) (out_of self.new) (err_of self.new) false) }
        ensures memory { ran_out_of_memory self.new ≡ false }
        ensures quiet { OnErr result (IsQuiet self.new) }
        ensures unchanged { OnErr result (states_of self.new ≡ states_of self.old) }
        ensures asked { J.asked_of judge.new ≤ J.asked_of judge.old + (accepted number loads (states_of self.old) (reply_of (states_of self.old).now effect)).cost }
        ensures ready { IsReadyAfter (J.asked_of judge.new) number }
    {
        let warning = match warning_if(self.alloc, effect.warns, number) {
            Ok(warning) => warning,
            Err(refused) => {
                effect.give_up();
                return Err(refused);
            }
        };
        let Effect {
            out,
            staged,
            warns: _,
        } = effect;
        self.indexed_states
            .replace_if(self.alloc, judge, staged, loads)?;
        self.out = out;
        self.err = warning;
        Ok(())
    }

    /// Does what an accepted line does, or refuses it if memory runs out. Returns whether it is refused.
    fn finish_line(&mut self, judge: &mut J, number: u64, loads: bool, effect: Effect) -> bool
        requires quiet { IsQuiet self.old }
        requires ready { IsReady (J.asked_of judge.old) number }
        requires prepared { IsPrepared (states_of self.old).now effect.staged }
        ensures answer { Answers number (accepted number loads (states_of self.old) (reply_of (states_of self.old).now effect))
            self.old self.new (J.asked_of judge.old) (J.asked_of judge.new) result }
        ensures ready { IsReadyAfter (J.asked_of judge.new) number }
    {
        match self.apply_effect(judge, number, loads, effect) {
            Ok(()) => false,
            Err(_) => {
                self.refuse(number, b"", &LineFault::NoMemory);
                true
            }
        }
    }

    /// Answers a line by the name of its tool and the words after it, and returns whether it is refused.
    fn answer_named(
        &mut self,
        judge: &mut J,
        unit: &HeldUnit<'_>,
        name: &str,
        words: &[String],
    ) -> bool
        requires quiet { IsQuiet self.old }
        requires ready { IsReady (J.asked_of judge.old) unit.now.number }
        ensures answer { (content : UnitText) → IsTextHeld unit.now.text content
            → Answers unit.now.number (answer_of unit.now.number name.now (states_of self.old)
            (reply (judging J.verdict_of J.decider_of) (states_of self.old) content (name.now ∷ map string_bytes words.now)))
            self.old self.new (J.asked_of judge.old) (J.asked_of judge.new) result }
        ensures ready { IsReadyAfter (J.asked_of judge.new) unit.now.number }
    {
        let Some(tool) = Tool::named(name) else {
            self.refuse(unit.number, name.as_bytes(), &LineFault::UnknownTool);
            return true;
        };
        match tool_reply(self.alloc, &self.indexed_states, &unit.text, words, tool) {
            Ok(effect) => self.finish_line(judge, unit.number, tool.loads(), effect),
            Err(fault) => {
                self.refuse(unit.number, name.as_bytes(), &fault);
                drop(fault);
                true
            }
        }
    }

    /// Answers a line by its words, and returns whether it is refused.
    fn answer_words(&mut self, judge: &mut J, unit: &HeldUnit<'_>, words: &[String]) -> bool
        requires quiet { IsQuiet self.old }
        requires ready { IsReady (J.asked_of judge.old) unit.now.number }
        ensures answer { (content : UnitText) → IsTextHeld unit.now.text content
            → Answers unit.now.number (answer_of unit.now.number (tool_word (map string_bytes words.now)) (states_of self.old)
            (reply (judging J.verdict_of J.decider_of) (states_of self.old) content (map string_bytes words.now)))
            self.old self.new (J.asked_of judge.old) (J.asked_of judge.new) result }
        ensures ready { IsReadyAfter (J.asked_of judge.new) unit.now.number }
    {
        match words {
            [name, words @ ..] => self.answer_named(judge, unit, name, words),
            [] => {
                let nothing = Effect::prints(Vec::new(self.alloc));
                self.finish_line(judge, unit.number, false, nothing)
            }
        }
    }

    /// Answers a line that is neither blank nor a comment, and returns whether it is refused.
    pub fn answer_line(&mut self, judge: &mut J, unit: &HeldUnit<'_>) -> bool
        requires quiet { IsQuiet self.old }
        requires ready { IsReady (J.asked_of judge.old) unit.now.number }
        ensures answer { (u : ScriptUnit) → IsUnitHeld line_asks unit.now u
            → Answers u.number (answer_of_words (judging J.verdict_of J.decider_of) u (states_of self.old) (words_of_line u.line))
            self.old self.new (J.asked_of judge.old) (J.asked_of judge.new) result }
        ensures ready { IsReadyAfter (J.asked_of judge.new) unit.now.number }
    {
        match words_of_line(self.alloc, &unit.line) {
            Ok(words) => self.answer_words(judge, unit, &words),
            Err(fault) => {
                self.refuse(unit.number, b"", &fault);
                drop(fault);
                true
            }
        }
    }

    /// Returns what the last line prints.
    pub fn printed(&self) -> &[u8]
        ensures { result.now ≡ out_of self.now }
    {
        &self.out
    }

    /// Returns the message of the last line.
    pub fn message(&self) -> &[u8]
        ensures { result.now ≡ err_of self.now }
    {
        if self.lacks_memory {
            self.reserved_message.as_bytes()
        } else {
            &self.err
        }
    }
}

/// A session with its judge, who is borrowed for the whole script. The session is a type parameter so that the owner
/// of the borrowed judge learns what became of it.
pub(crate) struct JudgedSession<'a, J, S> {
    pub judge: &'a mut J,
    pub session: S,
}

impl<'a, J, S: Drop> Drop for JudgedSession<'a, J, S> {
    fn drop(self)
        ensures { self.exit.0.now ≡ self.entry.judge.now }
    {
        let JudgedSession {
            judge: _judge,
            session: _session,
        } = self;
    }
}

impl<'a, J: Judge> Session for JudgedSession<'a, J, FaclSession<J>> {
    type State = States;

    ghost state = { λ f. states_of f.session };

    ghost asks = { line_asks };

    ghost answered = { answered (judging J.verdict_of J.decider_of) };

    ghost spent = { λ f. J.asked_of f.judge.now };

    ghost is_ready = { λ n f. IsReady (J.asked_of f.judge.now) n };

    ghost held = { λ f. f.judge.ghost_name };

    ghost to_out = { λ f. out_of f.session };

    ghost to_err = { λ f. err_of f.session };

    fn asks_for_text(line: &HeldLine<'_>) -> bool {
        asks_for_text(line)
    }

    fn answer(&mut self, unit: &HeldUnit<'_>) -> bool {
        self.session.fall_silent();
        if is_silent(&unit.line) {
            return false;
        }
        self.session.answer_line(self.judge, unit)
    }

    fn out(&self) -> &[u8] {
        self.session.printed()
    }

    fn err(&self) -> &[u8] {
        self.session.message()
    }
}
