//! The laws of the definitions that the audit is proved against.

ghost use Rattle.std.specs.Prelude.{◌≡◌, ℕ, List};
ghost use Rattle.ballots.specs.declared.message.Message.{Message as Meant};
ghost use Rattle.audit_command.specs.Explained.{VerdictsAreOne};
ghost use Rattle.audit_command.specs.TraceFile.{MeansTrace, MeansLawful, MeansUnlawful};

use ballots::messages_are_one;
use lawful_histories::laws::beginnings_are_lawful;
use run_breaches::laws::first_breaches_are_one;

/// A file tells one recorded run at most, so none is lawful and unlawful.
pub fn traces_are_one()
    ensures run { (file : List ℕ) (m n : ℕ) (s t : List Meant) → MeansTrace file m s → MeansTrace file n t
        → (m ≡ n) × (s ≡ t) }
    ensures judgement { (file : List ℕ) → MeansLawful file → MeansUnlawful file → ⊥ }
{
    messages_are_one();
}

/// A run has one verdict at most, with one text: it explains the first breach, and no later one.
pub fn verdicts_are_one()
    ensures { VerdictsAreOne }
{
    beginnings_are_lawful();
    first_breaches_are_one();
}
