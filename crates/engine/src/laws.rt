//! The laws of answers. Each is the contract of a function that does nothing.
ghost use Rattle.std.specs.Prelude.{◌≡◌, ◌≢◌, ℕ, List, [], false};
ghost use Rattle.cyc_port.specs.Files.{Files};
ghost use Rattle.report_writer.specs.declared.faults.FaultLine.{FaultLine};
ghost use Rattle.engine.specs.Answers.{Answer, order_of, status_of, told};
ghost use Rattle.engine.specs.Courses.{TellsNoWant};
ghost use Rattle.engine.specs.Runs.{IsAnswer};
ghost use Rattle.engine.specs.Words.{is_serve};

use cell_arcs::laws::libraries_are_sound;
use edit_log::laws::edited_netlists_are_sound;
use netlist_analysis::laws::{finding_is_unique, netlists_have_a_finding, tellings_exist};
use netlist_reader::{edit_files_are_told, netlists_are_sound};
use session_script::first_faulty_line_is_told;

/// Words and told files come to at most one answer of each order. An order is told only where the first word is `serve`.
pub fn answer_is_unique()
    ensures one { (words : List (List ℕ)) (files : Files) (answer other : Answer) →
        IsAnswer words files answer → IsAnswer words files other →
        order_of answer ≡ order_of other → answer ≡ other }
    ensures plain { (words : List (List ℕ)) (files : Files) (answer : Answer) →
        is_serve words ≡ false → IsAnswer words files answer → order_of answer ≡ [] }
{
    libraries_are_sound();
    netlists_are_sound();
    edit_files_are_told();
    edited_netlists_are_sound();
    first_faulty_line_is_told();
    finding_is_unique();
    tellings_exist();
}

/// Whatever the words and the files, they come to an answer, where the first word is not `serve`. No answer is want of memory
/// (status 8), or tells one.
pub fn verdicts_have_an_answer()
    ensures answered { (words : List (List ℕ)) (files : Files) → is_serve words ≡ false →
        (answer : Answer) × IsAnswer words files answer }
    ensures known { (words : List (List ℕ)) (files : Files) (answer : Answer) →
        IsAnswer words files answer → status_of answer ≢ 8 }
    ensures told { (words : List (List ℕ)) (files : Files) (line : FaultLine) →
        IsAnswer words files (told line) → TellsNoWant line }
{
    libraries_are_sound();
    netlists_are_sound();
    edit_files_are_told();
    edited_netlists_are_sound();
    first_faulty_line_is_told();
    netlists_have_a_finding();
}
