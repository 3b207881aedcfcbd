// The rules of a board as definitions, what follows from them, and the calls and answers in which they are told.
#![tactic(auto)]

ghost use Rattle.rules.specs.Rules.{State};
ghost use Rattle.rules.specs.Theorem.{Theorem, UniqueAnswers, AlwaysAStep, Repaired};

pub mod calls;
pub mod roles;

// What holds of two boards after any two lists of calls.
pub fn boards_hold() -> u8
    ensures the_main_theorem { (s t : State) → Theorem s t }
    ensures answers_are_unique { UniqueAnswers }
    ensures every_call_has_a_step { AlwaysAStep }
    ensures a_history_with_damage_is_repaired { Repaired }
{
    0
}
