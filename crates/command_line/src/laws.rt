//! Laws of the definitions that the command line is proved against.

ghost use Rattle.std.specs.Prelude.{◌≡◌, List};
ghost use Rattle.clap.specs.Words.{Text};
ghost use Rattle.command_line.specs.Calls.{IsCall, AsksFor};
ghost use Rattle.command_line.specs.CommandLine.{Asked as AskedFor};

/// What a call asks for is determined by its words.
pub fn calls_ask_for_one_thing()
    ensures { (words : List Text) (a b : AskedFor) → IsCall words → AsksFor words a → AsksFor words b → a ≡ b }
{}

/// However a call's words are taken apart, they ask for one thing.
pub fn calls_ask_for_something()
    ensures { (words : List Text) → IsCall words → (asked : AskedFor) × AsksFor words asked }
{}
