// The values of plans that make no device call.
use crate::steps::expect;
use lock_store::StepNo;
use plan_parts::{Kept, Kepts, Outcome, Taken, cut_step};
use std::process::Abort;
use std::test::Fail;
use vol_base::{Answer, CutBy, Key, Next, NoMemory, Packed, PlainReply, Step};
use vol_layout::{Resource, Table};

fn kept(which: Table) -> Option<Kept> {
    let table = Packed::<4>::empty(which.magic());
    Some(Kept { which, table })
}

fn first_of(kepts: &mut Kepts) -> Option<Table> {
    kepts.take().map(|kept| kept.which)
}

fn cut(by: CutBy) -> Result<Step, NoMemory> {
    Ok(Step {
        placed: None,
        called: true,
        next: Next::Answered(Answer::Cut(by)),
    })
}

// Locks come out last first, and tables first first, whatever places are empty.
#[test]
fn locks_and_tables_come_out_in_order(rt: HostRuntime) -> Result<(), Fail> {
    let mut taken = Taken::new();
    assert!(rt; taken.is_empty());
    taken.push(Resource::Part(0));
    taken.push(Resource::Group(1));
    assert!(rt; !taken.is_empty());
    expect(&rt, taken.pop(), Some(Resource::Group(1)));
    expect(&rt, taken.pop(), Some(Resource::Part(0)));
    expect(&rt, taken.pop(), None);
    let mut kepts = Kepts::new(None, kept(Table::File(0)), None, kept(Table::Group(1)));
    expect(&rt, first_of(&mut kepts), Some(Table::File(0)));
    expect(&rt, first_of(&mut kepts), Some(Table::Group(1)));
    expect(&rt, first_of(&mut kepts), None);
    Ok(())
}

#[test]
fn each_outcome_has_its_answer(rt: HostRuntime) -> Result<(), Fail> {
    let placed = Outcome::Placed(PlainReply::Exists);
    expect(&rt, placed.answer(), Answer::Plain(PlainReply::Exists));
    expect(&rt, Outcome::Open.answer(), Answer::Fine);
    expect(&rt, Outcome::Busy(Key(33)).answer(), Answer::Busy(Key(33)));
    expect(&rt, Outcome::Full.answer(), Answer::Full);
    expect(&rt, cut_step(StepNo::Fenced), cut(CutBy::Fenced));
    expect(&rt, cut_step(StepNo::Failed), cut(CutBy::Fault));
    expect(&rt, cut_step(StepNo::Bad(9)), cut(CutBy::Bad(9)));
    expect(&rt, cut_step(StepNo::NoMemory), Err(NoMemory));
    Ok(())
}
