//! What a node is about to do.

ghost use Rattle.std.specs.Prelude.{◌≡◌};
ghost use Rattle.std.specs.Option.{option_map};
ghost use Rattle.node_core.specs.Plans.{kept_by, sent_by};

use agreement::AgreementStep;
use ballots::{Message, Record};
use std::marker::Model;
use table_versions::Ready;
use uploads::Upload;

/// What was decided of an input.
#[derive(Debug, Drop)]
pub(crate) enum Planned {
    /// Nothing changes.
    Stays,
    /// The upload waits.
    Waits(Upload),
    /// The node's part in agreement takes a step, by which the prefix does not grow.
    Steps(AgreementStep),
    /// It takes a step, and the tables what the prefix grows by.
    Learns(AgreementStep, Ready),
}

/// What a node does about an input, decided and not yet done.
#[derive(Debug, Drop)]
pub struct Plan {
    pub(crate) planned: Planned,
}

impl Model for Plan {
    ghost use Rattle.node_core.specs.declared.plan.Planned.{Planned};

    ghost Value = { Planned };

    ghost use Rattle.header_types.specs.contracts.schema.Field as field;
    ghost use Rattle.std.specs.Coded.{codes};

    ghost coded = { Prim.hlevel (codes, field.the_row.coded) };

    ghost view = { λ p. p.planned };
}

impl Plan {
    /// The record that is kept before the plan is committed, if there is one.
    pub fn record(&self) -> Option<&Record>
        ensures { option_map (λ kept. kept.now) result ≡ kept_by self.now }
    {
        match &self.planned {
            Planned::Steps(step) => step.kept(),
            Planned::Learns(step, _) => step.kept(),
            _ => None,
        }
    }

    /// The messages that go out after the plan is committed.
    pub fn sends(&self) -> &[Message]
        ensures { result.now ≡ sent_by self.now }
    {
        match &self.planned {
            Planned::Steps(step) => step.sends.as_slice(),
            Planned::Learns(step, _) => step.sends.as_slice(),
            _ => &[],
        }
    }
}
