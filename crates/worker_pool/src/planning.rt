// A list of tasks, planned on several threads.
ghost use Rattle.std.specs.Prelude.{◌≡◌, ◌≤◌, ◌<◌, List, map, vec_len, Vec, IfOk};
ghost use Rattle.std.specs.List.{flat_map};
ghost use Rattle.worker_pool.specs.Planned.{planned, items_in, AreParts};

use mail_names::NoMemory;
use mail_plan::{Outcome, Planner, Task, plan};
use std::alloc::Global;
use std::thread;
use std::thread::Threads;

/// Plans the tasks on at most so many threads, this one among them, and gives the outcomes in the order of the tasks.
///
/// Each thread gets tasks that stand together, as many as another or one less. Where no thread can be made, this one does its
/// work too.
pub fn work_all<R: Threads + Sync, T: Planner + Sync>(
    rt: &R,
    alloc: Global,
    tasks: Vec<Task<T>>,
    workers: u32,
) -> Result<Vec<Outcome<T>>, NoMemory>
where
    T::Org: Send + Sync,
    requires { (1 ≤ workers) × (workers ≤ 16) }
    ensures { IfOk result (λ outcomes. outcomes.items ≡ map (planned T.means) tasks.items) }
{
    let shares = shares_of(alloc, tasks, workers as usize)?;
    let parts = thread::map_vec(rt, shares, &|share| plan_in_turn(alloc, share))?;
    joined(alloc, parts)
}

// At most so many lists that stand for the whole one after another, and as long as one another, or one less. Each has
// something where the whole has.
fn shares_of<X: Drop>(alloc: Global, whole: Vec<X>, count: usize) -> Result<Vec<Vec<X>>, NoMemory>
    requires { 1 ≤ count }
    ensures whole { IfOk result (λ shares. flat_map items_in shares.items ≡ whole.items) }
    ensures count { IfOk result (λ shares. vec_len shares ≤ count) }
{
    let mut shares = Vec::new(alloc);
    let mut rest = whole;
    let mut left = count;
    while left > 1 && rest.len() > 1 {
        let more = rest.split_off(rest.len().div_ceil(left))?;
        shares.push(rest)?;
        rest = more;
        left -= 1;
    }
    shares.push(rest)?;
    Ok(shares)
}

// Plans tasks one after another.
fn plan_in_turn<T: Planner>(alloc: Global, tasks: Vec<Task<T>>) -> Result<Vec<Outcome<T>>, NoMemory>
    ensures { IfOk result (λ outcomes. outcomes.items ≡ map (planned T.means) tasks.items) }
{
    let mut outcomes = Vec::with_capacity(alloc, tasks.len())?;
    for task in tasks {
        outcomes.push(plan(alloc, task)?)?;
    }
    Ok(outcomes)
}

// The parts, one after another, where each was made.
fn joined<X: Drop>(alloc: Global, parts: Vec<Result<Vec<X>, NoMemory>>) -> Result<Vec<X>, NoMemory>
    ensures { IfOk result (λ whole. AreParts parts.items whole.items) }
{
    let mut whole = Vec::new(alloc);
    for part in parts {
        let mut part = part?;
        whole.append(&mut part)?;
    }
    Ok(whole)
}
