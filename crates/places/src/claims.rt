// What a message asks of the board at a clock: the place that it would take, or a refusal.
ghost use Rattle.std.specs.Prelude.{true, ◌≡◌};
ghost use Rattle.headings.specs.Sequences.{good_sequence};
ghost use Rattle.message.specs.Records.{good};
ghost use Rattle.places.specs.Claims.{claim_in, identity_of, ending, cancels, report_place, timed, is_test, claim_of};

use crate::padding::padded;
use crate::{Identity, Place, Refusal};
use calendar::{end_of, start_of, target_of};
use groups::Group;
use headings::Sequence;
use message::{Form, Record, is_good};

fn identity_of(r: Record, s: Sequence, start: u32, end: u32) -> Identity
    requires { good_sequence s ≡ true }
    ensures { result ≡ identity_of r s start end }
{
    Identity {
        kind: r.heading.designator.kind,
        area: r.area.indicator,
        sequence: padded(s),
        start,
        end,
    }
}

// The place of a message that ends so.
#[tactic(auto, unfolding(crate::specs::Claims::ending))]
fn ending_at(clock: u32, end: u32, place: Place) -> Result<Place, Refusal>
    ensures { claim_in result ≡ ending clock end place }
{
    if end <= clock {
        return Err(Refusal::Ended);
    }
    Ok(place)
}

#[tactic(auto, unfolding(crate::specs::Claims::report_place))]
fn report_claim(clock: u32, r: Record, start: u32, end: u32) -> Result<Place, Refusal>
    requires { good_sequence r.line.sequence ≡ true }
    ensures { claim_in result ≡ ending clock end (report_place r start end) }
{
    let place = Place {
        identity: identity_of(r, r.line.sequence, start, end),
        correction: r.heading.correction,
        marked: false,
    };
    ending_at(clock, end, place)
}

fn cancellation_claim(
    clock: u32,
    r: Record,
    s: Sequence,
    from: Group,
    end: u32,
) -> Result<Place, Refusal>
    requires { good_sequence s ≡ true }
    ensures { claim_in result ≡ cancels clock r s from end }
{
    let target = target_of(r.heading.designator.kind, end, from).ok_or(Refusal::NoEnd)?;
    let place = Place {
        identity: identity_of(r, s, target, end),
        correction: 0,
        marked: true,
    };
    ending_at(clock, end, place)
}

// The claim of a good record whose start and end are known.
#[tactic(auto, using(crate::proofs::ClaimReturns::named_good, crate::proofs::ClaimReturns::own_good), unfolding(crate::specs::Claims::timed))]
fn timed_claim(clock: u32, r: Record, start: u32, end: u32) -> Result<Place, Refusal>
    requires { good r ≡ true }
    ensures { claim_in result ≡ timed clock r start end r.form }
{
    match r.form {
        Form::NoForm => Err(Refusal::BadRecord),
        Form::Test(_) => Err(Refusal::Test),
        Form::Cancellation(s, from) => cancellation_claim(clock, r, s, from, end),
        Form::Reported => report_claim(clock, r, start, end),
    }
}

fn is_test(form: Form) -> bool
    ensures { result ≡ is_test form }
{
    matches!(form, Form::Test(_))
}

#[tactic(auto, unfolding(crate::specs::Claims::claim_of))]
pub fn claim_of(clock: u32, r: Record) -> Result<Place, Refusal>
    ensures { claim_in result ≡ claim_of clock r }
{
    if !is_good(r) {
        return Err(Refusal::BadRecord);
    }
    if is_test(r.form) {
        return Err(Refusal::Test);
    }
    let start = start_of(clock, r.line.valid.from).ok_or(Refusal::NoStart)?;
    let end = end_of(r.heading.designator.kind, start, r.line.valid.to).ok_or(Refusal::NoEnd)?;
    timed_claim(clock, r, start, end)
}
