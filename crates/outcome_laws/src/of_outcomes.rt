//! Laws of outcomes: each is the contract of a call that does nothing.

ghost use Rattle.outcome_laws.specs.Outcomes.{OutcomesAreOne, JumpEnginesPrintTheSame};
ghost use Rattle.outcome_laws.specs.Outcomes.{EnginesPrintTheSameCosts, WrittenBeginsTheOutput};
ghost use Rattle.outcome_laws.specs.Loaded.{WithTablesTheSame};
ghost use Rattle.outcome_laws.specs.Existing.{OutcomesExist};
ghost use Rattle.outcome_laws.specs.Serving.{SmallEnginesServeTwo};
ghost use Rattle.outcome_laws.specs.Words.{CallsGoByName, CommandsAreCalled};

/// Words come to at most one outcome, where the files that they name and the input are known: one status, one
/// output, and one line on `err`.
pub fn outcomes_are_one()
    ensures { OutcomesAreOne }
{}

/// Two calls that differ in which of the engines `jps`, `block` and `plus` they pick, and ask for as many
/// states of a cell, come to the same outcome, for every command and whatever they show, where the files and
/// the input are known.
pub fn jump_engines_print_the_same()
    ensures { JumpEnginesPrintTheSame }
{}

/// Two calls of `drill`, or two of `scen` that don't show counts of taken states, come to the same outcome
/// whatever engines they pick, and however many states of a cell they ask for, where the files and the input
/// are known. Of `scen` this asks that these engines take the same maps (`boxes` and `moves` take small ones
/// alone), or that neither call is refused, or that the text for the map is that of a small one, or of none.
pub fn engines_print_the_same_costs()
    ensures { EnginesPrintTheSameCosts }
{}

/// What a call wrote that stopped with no outcome is a first part of what stands for the output of any
/// outcome that its words come to: some of its bytes where a write failed, and some of its lines, each whole,
/// where a read failed or for want of memory. By every command but `serve` the output alone stands for
/// itself. The files and the input are known.
pub fn written_begins_the_output()
    ensures { WrittenBeginsTheOutput }
{}

/// A call with `engine=plus` and `tables=` that names an accepted file, one of its map and rule, has the
/// outcomes of the call without `tables=`, and no others. It is known what that file holds, and the map is
/// known or absent; whatever else is known of files and input.
pub fn with_tables_the_same()
    ensures { WithTablesTheSame }
{}

/// Words that spell no call come to an outcome. So do words that spell one, for every command, where each
/// file that they name is there and the input is known.
pub fn outcomes_exist()
    ensures { OutcomesExist }
{}

/// Words that spell a call pick an engine for small maps only for `query` and `scen`, so no session is asked
/// to begin with one.
pub fn small_engines_serve_two()
    ensures { SmallEnginesServeTwo }
{}

/// Words that spell a call begin with the name of its command, as the definition of what the command does
/// tells it: no name is read as another command.
pub fn calls_go_by_name()
    ensures { CallsGoByName }
{}

/// Each command has a row in the table of commands by that name: none is forgotten there.
pub fn commands_are_called()
    ensures { CommandsAreCalled }
{}
