//! The definition of the machine at work on short scripts.
ghost use Rattle.session_machine.specs.WorkedScripts.{TakeTurns, QueriesArePinned, RebaseIsRefused, IsRefusedInOrder, StaleIsToldLast};

/// Of two sessions that publish on the same version the second is refused, and publishes on the newest one.
pub fn sessions_take_turns()
    ensures { TakeTurns }
{}

/// A query is answered of the pinned version, whatever the draft has and whatever is newest.
pub fn queries_are_of_the_pin()
    ensures { QueriesArePinned }
{}

/// A rebase that is refused leaves pin and draft as they were.
pub fn refused_rebase_keeps_the_draft()
    ensures { RebaseIsRefused }
{}

/// Calls without a pin, with a draft or without one, and of what there is not: of two refusals that hold the first is told.
pub fn first_refusal_is_told()
    ensures { IsRefusedInOrder }
{}

/// That a pin is below the newest version is told after an empty draft, and after what the draft's netlist lacks.
pub fn stale_is_told_last()
    ensures { StaleIsToldLast }
{}
