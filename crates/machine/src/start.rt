// The start of an operation.
ghost use Rattle.std.specs.Prelude.{◌≡◌};
ghost use Rattle.rules.specs.Answers.{answer_of};
ghost use Rattle.rules.specs.Sizes.{base};
ghost use Rattle.rules.specs.Step.{out};
ghost use Rattle.rules.specs.Start.{entered, start_of};
ghost use Rattle.tables.specs.Lent.{held, AreSame};

use crate::step::admit;
use rules::answer::{Outcome, Refusal};
use rules::{Entry, Operation};
use starts::begin::{begin, of_null};
use starts::refuse::refuse;
use tables::{Lent, address};

// What a start writes; it takes no step.
#[tactic(auto, unfolding(rules::specs::Start::entered, rules::specs::Step::lent, rows::specs::RowLaws::with_row))]
fn enter(tables: &mut Lent, t: u32, e: Entry)
    ensures does { held tables.new ≡ entered (held tables.old) t e }
    ensures same { AreSame tables.old tables.new }
{
    tables.write(address(e.cell), e.put);
    rows::store_row(tables, t, e.row);
}

// The start of an operation by a thread.
#[tactic(auto, unfolding(rules::specs::Start::start_of, rules::specs::Start::start_in))]
pub fn start(tables: &mut Lent, t: u32, o: Operation) -> Result<Outcome, Refusal>
    ensures start { out (answer_of result) (held tables.new) ≡ start_of base (held tables.old) t o }
    ensures same { AreSame tables.old tables.new }
{
    admit(tables, t)?;
    refuse(tables.readable(), t, o)?;
    let e = begin(o);
    if of_null(e) {
        return Ok(Outcome::Done(0));
    }
    enter(tables, t, e);
    Ok(Outcome::Started)
}
