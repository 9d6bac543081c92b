// The rules' words for what a step does, so that a place's code reads as its rule.
#![tactic(auto)]

ghost use Rattle.std.specs.Prelude.{◌≡◌};
ghost use Rattle.rules.specs.Answers.{number_of, answer_of};
ghost use Rattle.rules.specs.Places.{answers, becomes, finishes, retry, ends, damaged, stores, also_stores, clears_guards, guarding, reclaims, closing};

use rules::answer::{Answer, Outcome, Refusal};
use rules::{Effect, Guards, Mark, Named, NodeState, Row};

// The step is answered, and leaves the thread this row.
pub fn answers(number: u32, value: u64, row: Row) -> Effect
    ensures { result ≡ answers number value row }
{
    Effect {
        row,
        number,
        value,
        writes: false,
        put: 0,
        also: Named::Nothing,
        to: 0,
        guards: Guards::Keep,
        closes: false,
    }
}

// So it is, by what the operation has come to.
fn answered(r: Result<Outcome, Refusal>, row: Row) -> Effect
    ensures { result ≡ answers (answer_of r).number (answer_of r).value row }
{
    let Answer { number, value } = Answer::from(r);
    answers(number, value, row)
}

// The step goes on with this row.
pub fn becomes(row: Row) -> Effect
    ensures { result ≡ becomes row }
{
    answered(Ok(Outcome::Stepped), row)
}

// The operation ends, and the thread is idle.
pub fn finishes(value: u64) -> Effect
    ensures { result ≡ finishes value }
{
    answered(Ok(Outcome::Done(value)), Row::IDLE)
}

// So it does, and is to be tried again.
pub fn retry(seen: u64) -> Effect
    ensures { result ≡ retry seen }
{
    answered(Ok(Outcome::Retry(seen)), Row::IDLE)
}

// So it does, refused.
pub fn ends(why: Refusal) -> Effect
    ensures { result ≡ ends (number_of why) }
{
    answered(Err(why), Row::IDLE)
}

// A cell that was read is out of its range.
pub fn damaged(row: Row) -> Effect
    ensures { result ≡ damaged row }
{
    answered(Err(Refusal::OutOfRange), row)
}

// And the step's cell becomes `put`.
pub fn stores(put: u64, e: Effect) -> Effect
    ensures { result ≡ stores put e }
{
    Effect {
        writes: true,
        put,
        ..e
    }
}

// And the cell becomes `to` as well.
pub fn also_stores(cell: Named, to: u64, e: Effect) -> Effect
    ensures { result ≡ also_stores cell to e }
{
    Effect {
        also: cell,
        to,
        ..e
    }
}

// The node is reclaimed: its `next`, which is the step's cell, and its state become 0.
pub fn reclaims(node: u32, row: Row) -> Effect
    ensures { result ≡ reclaims node row }
{
    let gone = answered(Ok(Outcome::Reclaimed(u64::from(node))), row);
    stores(
        0,
        also_stores(Named::NodeState(node), NodeState::Free as u64, gone),
    )
}

pub fn clears_guards(row: Row) -> Effect
    ensures { result ≡ clears_guards row }
{
    Effect {
        guards: Guards::Clear,
        ..becomes(row)
    }
}

pub fn guarding(node: u32, row: Row) -> Effect
    ensures { result ≡ guarding node row }
{
    Effect {
        guards: Guards::Set(node),
        ..becomes(row)
    }
}

// Shutdown is over.
pub fn closing(total: u64) -> Effect
    ensures { result ≡ closing total }
{
    Effect {
        closes: true,
        ..stores(Mark::Closed as u64, finishes(total))
    }
}
