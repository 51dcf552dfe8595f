ghost use Rattle.std.specs.Prelude.{◌≡◌, ◌≤◌, ◌<◌, ◌-◌, ◌^◌, length, not, drop, IfSome};
ghost use Rattle.std.specs.List.{list_any};
ghost use Rattle.type_table.specs.Found.{Finds};
ghost use Rattle.listener_check.specs.Durations.{number_after, point_in, first_digit, is_zero, digits_found, decimal_found, length_found, duration_read, timed as timed_of};
ghost use Rattle.typed_program.specs.Terms.{is_tenths as is_tenths_of};
ghost use Rattle.listener_check.specs.Went.{Goes};

use crate::operand::place;
use crate::reader::{Reader, count_sum};
use crate::sofar::Sofar;
use epl_tree::{Duration, DurationNode};
use epl_values::Shape;
use span_text::Spot;
use type_table::{Fault, Refusal};
use typed_program::{Duration as Timed, TypedExpr, TypedNode};

fn digit_of(byte: u8) -> u64
    ensures value { result ≡ byte - 48 }
    ensures small { result ≤ 207 }
{
    u64::from(byte.saturating_sub(48))
}

/// The number that at most twelve digits write.
#[tactic(auto, using(crate::proofs::Digits::digits))]
fn number_of(digits: &[u8]) -> u64
    requires { length digits.now ≤ 12 }
    ensures value { result ≡ number_after 0 digits.now }
    ensures small { result < 2 ^ 50 }
{
    let mut number: u64 = 0;
    for digit in digits {
        number = number * 10 + digit_of(*digit);
    }
    number
}

fn first_digit(digits: &[u8]) -> u8
    ensures { result ≡ first_digit digits.now }
{
    match digits {
        [digit, ..] => digit.saturating_sub(48),
        [] => 0,
    }
}

fn is_past_tenths(rest: &[u8]) -> bool
    ensures { result ≡ list_any (λ c. not (is_zero c)) (drop 1 rest.now) }
{
    rest.iter().skip(1).any(|digit| *digit != 48)
}

#[tactic(auto, unfolding(crate::specs::Durations::digits_found))]
fn tenths(whole: &[u8], rest: &[u8], spot: Spot) -> Result<TypedExpr, Refusal>
    ensures { Finds result (digits_found spot whole.now rest.now) }
{
    if whole.len() > 12 || is_past_tenths(rest) {
        return Err(Refusal::Fault(Fault { code: 11, spot }));
    }
    let tenths = number_of(whole) * 10 + u64::from(first_digit(rest));
    Ok(TypedExpr {
        shape: Some(Shape::Integer),
        node: TypedNode::Tenths(tenths as i64),
    })
}

#[tactic(auto, unfolding(crate::specs::Durations::point_in))]
fn point_in(digits: &[u8]) -> Option<usize>
    ensures place { result ≡ point_in digits.now }
    ensures inside { IfSome result (λ at. at < length digits.now) }
{
    digits.iter().position(|digit| *digit == 46)
}

fn decimal(text: &str, spot: Spot) -> Result<TypedExpr, Refusal>
    ensures { Finds result (decimal_found spot text.now) }
{
    let digits = text.as_bytes();
    match point_in(digits) {
        Some(at) => tenths(&digits[..at], &digits[at + 1..], spot),
        None => tenths(digits, &[], spot),
    }
}

#[tactic(auto, unfolding(typed_program::specs::Terms::is_tenths))]
fn is_tenths(typed: &TypedExpr) -> bool
    ensures { result ≡ is_tenths_of typed.now }
{
    matches!(&typed.node, TypedNode::Tenths(_))
}

/// The operand of a duration among those of the site, and whether it is a literal of tenths.
#[tactic(auto, using(crate::proofs::Going::going), unfolding(crate::specs::Durations::timed))]
fn timed(sofar: &mut Sofar, typed: TypedExpr) -> Result<Timed, Refusal>
    ensures { Goes result (timed_of typed sofar.old) sofar.new }
{
    let tenths = is_tenths(&typed);
    let operand = place(sofar, typed)?;
    Ok(Timed { operand, tenths })
}

impl Reader<'_> {
    #[tactic(auto, unfolding(crate::specs::Durations::length_found))]
    fn length(&self, duration: &Duration) -> Result<TypedExpr, Refusal>
        ensures { Finds result (length_found self.now.table.now self.now.scope.now self.now.inner.now duration.now.spot duration.now.node) }
    {
        match &duration.node {
            DurationNode::Decimal(text) => decimal(text.as_str(), duration.spot),
            DurationNode::Seconds(tree) => {
                let naming = self.duration_naming(tree);
                self.named_value(naming, &Shape::Integer, tree)
            }
        }
    }

    /// A duration, with its place among the operands of the site.
    #[tactic(auto, using(crate::proofs::Going::going), unfolding(crate::specs::Durations::duration_read))]
    pub fn duration(&self, sofar: &mut Sofar, duration: &Duration) -> Result<Timed, Refusal>
        ensures { Goes result (duration_read self.now.table.now self.now.scope.now self.now.inner.now duration.now sofar.old) sofar.new }
    {
        count_sum(sofar, duration.spot)?;
        let typed = self.length(duration)?;
        timed(sofar, typed)
    }
}
