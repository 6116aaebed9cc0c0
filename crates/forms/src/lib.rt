// The complexes that the forms of a job name, and how many cells they have.
#![tactic(auto)]

ghost use Rattle.std.specs.Prelude.{◌≡◌, IfOk};
ghost use Rattle.report.specs.Degrees.{listed};
ghost use Rattle.forms.specs.Counted.{counted, piled};
ghost use Rattle.forms.specs.Fields.{codes_of};
ghost use Rattle.forms.specs.FormLaw.{Accepted};
ghost use Rattle.forms.specs.Forms.{Lists};
ghost use Rattle.forms.specs.Held.{HoldLists, listing};
ghost use Rattle.forms.specs.Steps.{viewed};

mod closed;
pub mod fault;
pub mod job_lists;
mod layers;
mod measure;
pub mod numbers;
mod pile;

use complex::fault::PileFault;
use fault::FormFault;
use field::Prime;
use field256::Field256;
use job_lists::{ClosedLists, JobLists};
use numbers::NamesField;
use pile::measure_form;
use reader::order::FieldOrder;
use reader::question::Form;
use report::ByDegree;

// Over the field of an order.
fn measure_over(
    order: FieldOrder,
    form: Form,
    lists: &ClosedLists<'_>,
) -> Result<ByDegree, PileFault>
    ensures { listing result ≡ piled (codes_of order) form (viewed lists.now) }
{
    match order {
        FieldOrder::Two => measure_form(form, lists, Prime::<2>),
        FieldOrder::Three => measure_form(form, lists, Prime::<3>),
        FieldOrder::Five => measure_form(form, lists, Prime::<5>),
        FieldOrder::Seven => measure_form(form, lists, Prime::<7>),
        FieldOrder::TwoFiftyOne => measure_form(form, lists, Prime::<251>),
        FieldOrder::TwoFiftySix => measure_form(form, lists, Field256),
    }
}

// The cells of each degree of the complex that the form names, if the lists are closed. The order is a `FieldOrder`,
// or the number of one.
pub fn count_cells<O: NamesField>(
    order: O,
    form: Form,
    lists: &JobLists<'_>,
) -> Result<ByDegree, FormFault>
    ensures is { (l : Lists) → HoldLists lists.now l →
        listing result ≡ counted (O.named order) form l }
    ensures law { (l : Lists) → HoldLists lists.now l →
        IfOk result (λ n. Accepted form l (listed n)) }
{
    let order = order.field_order();
    let closed = lists.closed()?;
    Ok(measure_over(order, form, &closed)?)
}
