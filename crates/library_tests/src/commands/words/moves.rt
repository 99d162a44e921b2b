// The words of plans, optimizations and verifications.
use super::{asks, image_at, is_job, volume};
use a2_device::Order;
use shop_help::WordsFault;
use shop_jobs::{
    Ask, Beside, Change, FileSystem, ImageReading, Input, Job, Look, Target, VolumeAsk,
};
use std::alloc::{AllocError, Global};
use std::process::Abort;
use std::test::Fail;

/// The ProDOS volume of a.po, with these places reserved.
fn prodos(alloc: Global, reserve: Option<String>) -> Result<Input, AllocError> {
    let mut prodos = volume(FileSystem::Prodos, Order::Prodos);
    prodos.reserve = reserve;
    image_at(alloc, "a.po", ImageReading::Volume(prodos))
}

/// What is asked by a plan.
fn plan(reclaim: bool, words: bool) -> Ask {
    Ask::Volume(VolumeAsk::Look(Look::Plan { reclaim, words }))
}

/// What is asked by an optimization.
fn optimization(reclaim: bool, stop_after: Option<u64>) -> Ask {
    let optimize = Change::Optimize {
        reclaim,
        stop_after,
    };
    Ask::Volume(VolumeAsk::Change(optimize))
}

#[test]
fn a_plan_may_reclaim_and_reserve(rt: HostRuntime) -> Result<(), Fail> {
    let alloc = rt.alloc();
    let input = prodos(alloc, Some("7,280".to_string(alloc)?))?;
    let line = "plan a.po --fs prodos --order prodos --reclaim --reserve 7,280";
    asks(&rt, alloc, line, input, plan(true, false), Target::Nothing)?;
    Ok(())
}

#[test]
fn a_plan_may_be_told_in_words(rt: HostRuntime) -> Result<(), Fail> {
    let alloc = rt.alloc();
    let input = prodos(alloc, None)?;
    let line = "plan a.po --words --fs prodos --order prodos";
    asks(&rt, alloc, line, input, plan(false, true), Target::Nothing)?;
    Ok(())
}

/// The words of an optimization of a.po and these are those of one with this limit.
fn optimizes(
    rt: &impl Abort,
    alloc: Global,
    more: &str,
    stop_after: Option<u64>,
) -> Result<(), WordsFault> {
    let input = prodos(alloc, None)?;
    let ask = optimization(true, stop_after);
    let output = Target::File("b.po".to_string(alloc)?);
    let line = format!(in alloc; "optimize a.po --fs prodos --order prodos --reclaim {more}")?;
    asks(rt, alloc, line.as_str(), input, ask, output)
}

#[test]
fn an_optimization_may_have_a_limit_of_writes(rt: HostRuntime) -> Result<(), Fail> {
    for (more, stop_after) in [
        ("--out b.po", None),
        ("--out b.po --stop-after 0", Some(0)),
        (
            "--stop-after 18446744073709551615 --out b.po",
            Some(18446744073709551615),
        ),
    ] {
        optimizes(&rt, rt.alloc(), more, stop_after)?;
    }
    Ok(())
}

#[test]
fn an_optimization_may_write_its_certificate(rt: HostRuntime) -> Result<(), Fail> {
    let alloc = rt.alloc();
    let job = Job {
        input: prodos(alloc, None)?,
        ask: optimization(false, None),
        output: Target::File("b.po".to_string(alloc)?),
        certificate: Some("a.cert".to_string(alloc)?),
    };
    let line = "optimize a.po --fs prodos --order prodos --cert a.cert --out b.po";
    is_job(&rt, alloc, line, job)?;
    Ok(())
}

#[test]
fn an_optimization_may_be_done_in_place(rt: HostRuntime) -> Result<(), Fail> {
    let alloc = rt.alloc();
    let input = prodos(alloc, None)?;
    let ask = optimization(false, None);
    let line = "optimize a.po --in-place --fs prodos --order prodos";
    asks(&rt, alloc, line, input, ask, Target::InPlace)?;
    Ok(())
}

#[test]
fn a_verification_reads_a_certificate(rt: HostRuntime) -> Result<(), Fail> {
    let alloc = rt.alloc();
    let mut input = prodos(alloc, None)?;
    input.beside = Beside::File("a.cert".to_string(alloc)?);
    let verify = Ask::Volume(VolumeAsk::Look(Look::Verify { reclaim: true }));
    let line = "verify a.po --fs prodos --order prodos --reclaim --from a.cert";
    asks(&rt, alloc, line, input, verify, Target::Nothing)?;
    Ok(())
}
