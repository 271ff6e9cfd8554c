//! That plans and diagrams are made.
ghost use Rattle.std.specs.Prelude.{◌<◌, IsSome, IsTrue, length};
ghost use Rattle.can_layout.specs.Plans.{signal_at};

use crate::reading::database;
use can_layout::{
    Chain, Meter, Plan, Presence, Walk, chain, make_plan, make_plans, picture, pictures,
};
use dbc_records::Database;
use dbc_values::Memory;
use std::alloc::Global;
use std::test::Fail;

// Eight bits in the second byte.
const ONE: &[u8] = b"BO_ 5 A: 2 N\n SG_ S : 8|8@1+ (1,0) [0|0] \"\"\n";

// The raw value of the first signal in data, by the plan of the first message.
fn first_raw(alloc: Global, database: &Database, bytes: &[u8]) -> Result<u64, Fail>
    requires { 0 < length database.now.messages }
{
    let plan = make_plan(alloc, database, 0, &mut Meter::new())?;
    if plan.signals() == 0
        || bytes.len() != plan.size() as usize
        || !plan.present(0, bytes)
        || !plan.is_plain()
    {
        return Err(Fail::from("no signal"));
    }
    Ok(plan.raw(0, bytes))
}

// How many plans and diagrams are made of all messages, and counted.
fn all_made(alloc: Global, database: &Database) -> Result<bool, Fail> {
    let mut meter = Meter::new();
    let plans = make_plans(alloc, database, &mut meter)?;
    let drawn = pictures(alloc, database, &mut meter)?;
    Ok(plans.len() == 1 && drawn.len() == 1 && meter.plans() == 1 && meter.pictures() == 1)
}

const DIAGRAM: &[u8] = b"\
Message A 5 2
   0:   .   .   .   .   .   .   .   .
   1:   0   0   0   0   0   0   0   0
   0 S 8|8@1+
";

// Whether the plan, the diagram and those of all messages are right.
fn all_right(alloc: Global, database: &Database) -> Result<bool, Fail>
    requires { 0 < length database.now.messages }
{
    let drawn = picture(alloc, database, 0, &mut Meter::new())?;
    Ok(
        drawn.as_slice() == DIAGRAM
            && first_raw(alloc, database, &[1, 42])? == 42
            && all_made(alloc, database)?,
    )
}

fn is_laid_out(alloc: Global) -> Result<bool, Fail> {
    let database = database(alloc, ONE)?;
    all_right(alloc, &database)
}

#[test]
fn a_plan_and_a_picture(rt: HostRuntime) -> Result<(), Fail> {
    assert!(rt; is_laid_out(rt.alloc())?);
    Ok(())
}

// A signal below a multiplexor.
const CHAINED: &[u8] =
    b"BO_ 5 A: 3 N\n SG_ S m1 : 16|8@1+ (1,0) [0|0] \"\"\n SG_ T M : 0|8@1+ (1,0) [0|0] \"\"\n";

// Whether the first message has a first signal.
#[tactic(auto, unfolding(can_layout::specs::Plans::signal_at))]
fn has_first(database: &Database) -> bool
    ensures { IsTrue result → IsSome (signal_at database.now 0 0) }
{
    match database.messages.as_slice() {
        [message, ..] => !message.signals.as_slice().is_empty(),
        [] => false,
    }
}

// Whether the first signal has one multiplexor.
fn has_one_link(alloc: Global, database: &Database) -> Result<bool, Memory> {
    if !has_first(database) {
        return Ok(false);
    }
    match chain(alloc, database, 0, 0)? {
        Walk::Chain(links) => Ok(links.len() == 1),
        Walk::Absent { .. } | Walk::Loop => Ok(false),
    }
}

fn is_chained(alloc: Global) -> Result<bool, Fail> {
    let database = database(alloc, CHAINED)?;
    Ok(has_one_link(alloc, &database)?)
}

#[test]
fn a_multiplexing_chain(rt: HostRuntime) -> Result<(), Fail> {
    assert!(rt; is_chained(rt.alloc())?);
    Ok(())
}

// A signal below a multiplexor below a multiplexor, with many raw values of its own one.
const DEEP: &[u8] = b"\
BO_ 5 A: 3 N
 SG_ S m0 : 16|8@1+ (1,0) [0|0] \"\"
 SG_ T m1M : 8|8@1+ (1,0) [0|0] \"\"
 SG_ U M : 0|8@1+ (1,0) [0|0] \"\"
SG_MUL_VAL_ 5 S T 9-9, 1-5, 2-3, 20-20, 22-22, 24-24, 26-26, 28-28, 30-30, 32-32, 34-34, 36-36, 38-38, 40-40, 42-42, 44-44, 46-46;
SG_MUL_VAL_ 5 T U 1-1;
";

// Whether the first signal of a plan is present in data, by the plan and as it is looked up.
fn is_first_there(alloc: Global, plan: &Plan, bytes: &[u8]) -> Result<bool, Memory>
    requires { 0 < length plan.now.rows }
{
    let presence = Presence::of(alloc, plan, bytes)?;
    let mut by_runs = Presence::for_runs(alloc, plan, bytes)?;
    Ok(plan.present(0, bytes) && presence.has(0) && by_runs.has(0) && by_runs.run_from(0).0)
}

// Whether the chain leads through indexes 1 and 2, and the first link has the raw value 4 and not 6.
fn has_both_links(chain: &Chain) -> bool {
    let (Some(own), Some(next)) = (chain.link(0), chain.link(1)) else {
        return false;
    };
    own.switch == 1
        && next.switch == 2
        && own.ranges().len() == 17
        && own.has(4)
        && !own.has(6)
        && chain.link(2).is_none()
}

fn is_deep(alloc: Global, plan: &Plan) -> Result<bool, Memory> {
    if plan.signals() == 0 {
        return Ok(false);
    }
    let leads = match &plan.row(0).chain {
        Some(chain) => has_both_links(chain),
        None => false,
    };
    Ok(
        leads
            && !plan.is_plain()
            && is_first_there(alloc, plan, &[1, 4, 0])?
            && !is_first_there(alloc, plan, &[1, 6, 0])?
            && !is_first_there(alloc, plan, &[2, 4, 0])?,
    )
}

fn is_chain_found(alloc: Global) -> Result<bool, Fail> {
    let database = database(alloc, DEEP)?;
    let plan = make_plan(alloc, &database, 0, &mut Meter::new())?;
    Ok(is_deep(alloc, &plan)?)
}

#[test]
fn nested_multiplexors(rt: HostRuntime) -> Result<(), Fail> {
    assert!(rt; is_chain_found(rt.alloc())?);
    Ok(())
}
