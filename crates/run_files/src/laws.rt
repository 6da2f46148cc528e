//! Laws of the definitions that the readings are proved against.

ghost use Rattle.std.specs.Prelude.{◌≡◌, ℕ, List};
ghost use Rattle.node_events.specs.declared.event.Event.{Event as Happening};
ghost use Rattle.traces.specs.declared.config.Config.{Config as Configured};
ghost use Rattle.run_files.specs.declared.script.ClusterSize.{ClusterSize as Counted};
ghost use Rattle.run_files.specs.declared.script.ScriptCall.{ScriptCall as Calling};
ghost use Rattle.run_files.specs.ScheduleFile.{MeansSchedule};
ghost use Rattle.run_files.specs.ScriptFile.{MeansScript};

/// A file means one schedule at most.
pub fn schedules_are_one()
    ensures { (file : List ℕ) (c d : Configured) (s t : List Happening) → MeansSchedule file c s → MeansSchedule file d t
        → (c ≡ d) × (s ≡ t) }
{}

/// A file means one script at most.
pub fn scripts_are_one()
    ensures { (file : List ℕ) (n m : Counted) (s t : List Calling) → MeansScript file n s → MeansScript file m t
        → (n ≡ m) × (s ≡ t) }
{}
