//! What is told of the first message that breaks a rule.

ghost use Rattle.std.specs.Prelude.{◌≡◌, ◌++◌, List, IfOk, string_bytes, codes};
ghost use Rattle.breach_words.specs.Explanation.{told, told_against, rules_text, line_at, explanation_of};
ghost use Rattle.breach_words.specs.Explanation.{promises_below, leaves_out_an_acceptance, reports_no_lower_ballot};
ghost use Rattle.breach_words.specs.Explanation.{reports_what_nobody_proposed, proposes_a_second_value};
ghost use Rattle.breach_words.specs.Explanation.{proposes_without_a_majority, proposes_over_a_report};
ghost use Rattle.breach_words.specs.Explanation.{accepts_what_nobody_proposed, accepts_below_its_promise};

use crate::lines::message_line;
use ballots::Message;
use run_breaches::{Breach, BrokenRules};
use std::alloc::{AllocError, Global};

// Each rule that is broken, in plain words.
const PROMISES_BELOW: &str =
    "its sender had promised this ballot or a higher one, or accepted at one";

const LEAVES_OUT_AN_ACCEPTANCE: &str =
    "its sender had accepted a value that it does not report, at a higher ballot than it reports or where it reports none";

const REPORTS_NO_LOWER_BALLOT: &str =
    "what it reports was not accepted at a ballot below the promised one";

const REPORTS_WHAT_NOBODY_PROPOSED: &str = "what it reports was not proposed before";

const PROPOSES_A_SECOND_VALUE: &str = "another value was proposed at its ballot";

const PROPOSES_WITHOUT_A_MAJORITY: &str = "no majority had promised its ballot";

const PROPOSES_OVER_A_REPORT: &str =
    "its value is not that of the highest report among the promises of its ballot";

const ACCEPTS_WHAT_NOBODY_PROPOSED: &str = "its value was not proposed at its ballot";

const ACCEPTS_BELOW_ITS_PROMISE: &str =
    "its sender had promised a higher ballot, or accepted at one";

const DECIDES_WHAT_WAS_NOT_CHOSEN: &str = "no majority had accepted its value at one ballot";

/// Why the message of the breach breaks the rules, in lines that each end with a newline: first its number, from 0, its
/// slot and its line; then a line for each rule that it breaks, in plain words, with the number and the line of the
/// first message that it goes against, where the rule speaks of one.
///
/// The places are those of messages in `sent`; a place behind its end has an empty line.
pub fn explanation(alloc: Global, sent: &[Message], breach: &Breach) -> Result<String, AllocError>
    ensures { IfOk result (λ text. string_bytes text ≡ explanation_of sent.now breach.now) }
{
    let place = breach.place;
    let slot = breach.slot.number();
    let line = line_of(alloc, sent, place)?;
    let rules = rules_of(alloc, sent, &breach.broken)?;
    format!(in alloc; "message {place} of slot {slot} breaks the rules: {line}\n{rules}")
}

// The line of the message in this place, and nothing where there is none.
fn line_of(alloc: Global, sent: &[Message], place: usize) -> Result<String, AllocError>
    ensures { IfOk result (λ line. string_bytes line ≡ line_at sent.now place) }
{
    match sent.get(place) {
        Some(message) => message_line(alloc, message),
        None => Ok(String::new(alloc)),
    }
}

// A line for each rule that is broken.
fn rules_of(alloc: Global, sent: &[Message], broken: &BrokenRules) -> Result<String, AllocError>
    ensures { IfOk result (λ text. string_bytes text ≡ rules_text sent.now broken.now) }
{
    match broken {
        BrokenRules::Promise {
            not_above,
            unreported,
            report_not_below,
            report_not_proposed,
        } => {
            let bounds = promise_rules(alloc, sent, *not_above, *unreported)?;
            let report = report_rules(alloc, *report_not_below, *report_not_proposed)?;
            format!(in alloc; "{bounds}{report}")
        }
        BrokenRules::Accept {
            second_value,
            not_promised,
            not_reported,
        } => accept_rules(alloc, sent, *second_value, *not_promised, *not_reported),
        BrokenRules::Accepted {
            not_proposed,
            below,
        } => accepted_rules(alloc, sent, *not_proposed, *below),
        BrokenRules::Decided => told_if(alloc, true, DECIDES_WHAT_WAS_NOT_CHOSEN),
    }
}

fn promise_rules(
    alloc: Global,
    sent: &[Message],
    not_above: Option<usize>,
    unreported: Option<usize>,
) -> Result<String, AllocError>
    ensures { IfOk result (λ text. string_bytes text ≡ told_against sent.now not_above promises_below
        ++ told_against sent.now unreported leaves_out_an_acceptance) }
{
    let above = told_of(alloc, sent, not_above, PROMISES_BELOW)?;
    let highest = told_of(alloc, sent, unreported, LEAVES_OUT_AN_ACCEPTANCE)?;
    format!(in alloc; "{above}{highest}")
}

fn report_rules(
    alloc: Global,
    report_not_below: bool,
    report_not_proposed: bool,
) -> Result<String, AllocError>
    ensures { IfOk result (λ text. string_bytes text ≡ told report_not_below reports_no_lower_ballot
        ++ told report_not_proposed reports_what_nobody_proposed) }
{
    let below = told_if(alloc, report_not_below, REPORTS_NO_LOWER_BALLOT)?;
    let proposed = told_if(alloc, report_not_proposed, REPORTS_WHAT_NOBODY_PROPOSED)?;
    format!(in alloc; "{below}{proposed}")
}

fn accept_rules(
    alloc: Global,
    sent: &[Message],
    second_value: Option<usize>,
    not_promised: bool,
    not_reported: Option<usize>,
) -> Result<String, AllocError>
    ensures { IfOk result (λ text. string_bytes text ≡ told_against sent.now second_value proposes_a_second_value
        ++ (told not_promised proposes_without_a_majority
        ++ told_against sent.now not_reported proposes_over_a_report)) }
{
    let only = told_of(alloc, sent, second_value, PROPOSES_A_SECOND_VALUE)?;
    let promised = told_if(alloc, not_promised, PROPOSES_WITHOUT_A_MAJORITY)?;
    let reported = told_of(alloc, sent, not_reported, PROPOSES_OVER_A_REPORT)?;
    format!(in alloc; "{only}{promised}{reported}")
}

fn accepted_rules(
    alloc: Global,
    sent: &[Message],
    not_proposed: bool,
    below: Option<usize>,
) -> Result<String, AllocError>
    ensures { IfOk result (λ text. string_bytes text ≡ told not_proposed accepts_what_nobody_proposed
        ++ told_against sent.now below accepts_below_its_promise) }
{
    let proposed = told_if(alloc, not_proposed, ACCEPTS_WHAT_NOBODY_PROPOSED)?;
    let least = told_of(alloc, sent, below, ACCEPTS_BELOW_ITS_PROMISE)?;
    format!(in alloc; "{proposed}{least}")
}

// A line of the rule, where it is broken.
fn told_if(alloc: Global, is_broken: bool, reason: &str) -> Result<String, AllocError>
    ensures { IfOk result (λ text. string_bytes text ≡ told is_broken reason.now) }
{
    if is_broken {
        format!(in alloc; "- {reason}\n")
    } else {
        Ok(String::new(alloc))
    }
}

// A line of the rule with the message that it goes against, where there is one.
fn told_of(
    alloc: Global,
    sent: &[Message],
    against: Option<usize>,
    reason: &str,
) -> Result<String, AllocError>
    ensures { IfOk result (λ text. string_bytes text ≡ told_against sent.now against reason.now) }
{
    match against {
        Some(place) => {
            let line = line_of(alloc, sent, place)?;
            format!(in alloc; "- {reason}; message {place}: {line}\n")
        }
        None => Ok(String::new(alloc)),
    }
}
