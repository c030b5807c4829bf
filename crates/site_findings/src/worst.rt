// The line of the worst case of a site.
ghost use Rattle.std.specs.Prelude.{OnOk};
ghost use Rattle.site_findings.specs.Put.{Puts};
ghost use Rattle.site_findings.specs.Worst.{case_text, cause_text, held_text, worst_text};

use crate::text::Text;
use pua_model::Plan;
use sig_response::{Cause, WorstCase};
use sig_types::GroupNo;
use std::alloc::AllocError;

// Puts that a group holds another one back by its minimum green, and by what comes after it.
#[tactic(auto, unfolding(crate::specs::Worst::held_text))]
fn put_held(
    text: &mut Text,
    plan: &Option<Plan>,
    other: GroupNo,
    after: &[u8],
) -> Result<(), AllocError>
    ensures { OnOk result (Puts text.old text.new (held_text plan.now other after.now)) }
{
    text.put(b"minimum green of ")?;
    text.put_group(plan, other)?;
    text.put(after)
}

// Puts why a group takes so many seconds.
fn put_cause(text: &mut Text, plan: &Option<Plan>, cause: Cause) -> Result<(), AllocError>
    ensures { OnOk result (Puts text.old text.new (cause_text plan.now cause)) }
{
    match cause {
        Cause::MinimumGreen => text.put(b"its minimum green and amber"),
        Cause::MinimumRed => text.put(b"its amber and minimum red"),
        Cause::Intergreen(other) => put_held(text, plan, other, b" and intergreen from it"),
        Cause::RedAmber(other) => put_held(text, plan, other, b" and red-amber after it"),
    }
}

// Puts the worst case of a site.
#[tactic(auto, unfolding(crate::specs::Worst::case_text))]
fn put_case(text: &mut Text, plan: &Option<Plan>, worst: WorstCase) -> Result<(), AllocError>
    ensures { OnOk result (Puts text.old text.new (case_text plan.now worst)) }
{
    text.put(b"worst case: ")?;
    text.put_number(worst.seconds)?;
    text.put(b" s from a wish to what is shown (")?;
    text.put_group(plan, worst.group)?;
    text.put(b": ")?;
    put_cause(text, plan, worst.cause)?;
    text.put(b")\n")
}

/// Puts the line of the worst case, where the site is known.
pub(crate) fn put_worst(
    text: &mut Text,
    plan: &Option<Plan>,
    worst: Option<WorstCase>,
) -> Result<(), AllocError>
    ensures { OnOk result (Puts text.old text.new (worst_text plan.now worst)) }
{
    match worst {
        Some(worst) => put_case(text, plan, worst),
        None => Ok(()),
    }
}
