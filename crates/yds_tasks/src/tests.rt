//! Two tasks that have one level, one that has none, and a refusal.
use crate::{TaskFault, TaskReason, print_jobs, read_tasks};
use std::hash::RandomState;
use std::test::Fail;
use yds_model::JobRow;
use yds_port::MemorySink;

#[test]
fn the_jobs_of_two_tasks_with_one_level(rt: HostRuntime) -> Result<(), Fail> {
    let text = b"horizon 12\ntask a 0 4 4 2\ntask b 0 6 6 3\n";
    let printed =
        b"job a.0 0 4 2\njob a.1 4 8 2\njob a.2 8 12 2\njob b.0 0 6 3\njob b.1 6 12 3\n# one level 12 12\n";
    let mut sink = MemorySink::with_room(rt.alloc(), 200, 200, Vec::new(rt.alloc()))?;
    let tasks = read_tasks(rt.alloc(), RandomState::new(&rt)?, text)?;
    assert_eq!(rt; tasks.tasks().len(), 2);
    assert_eq!(rt; tasks.horizon(), 12);
    assert_eq!(rt; tasks.jobs(), 5);
    assert_eq!(rt; tasks.one_level(), Some((12, 12)));
    let second = tasks.tasks()[1];
    assert!(rt; second.jobs_until(tasks.horizon()) == 2);
    assert_eq!(rt; tasks.row(1, 1), JobRow::new(6, 12, 3));
    print_jobs(&tasks, &mut sink)?;
    assert_eq!(rt; sink.bytes(), printed.as_slice());
    Ok(())
}

#[test]
fn an_offset_leaves_no_level(rt: HostRuntime) -> Result<(), Fail> {
    let tasks = read_tasks(
        rt.alloc(),
        RandomState::new(&rt)?,
        b"# sampled\nhorizon 10\ntask s 1 5 2 1",
    )?;
    assert_eq!(rt; tasks.jobs(), 2);
    assert_eq!(rt; tasks.one_level(), None);
    Ok(())
}

#[test]
fn the_first_fault_is_told_with_its_place(rt: HostRuntime) -> Result<(), Fail> {
    let fault = TaskFault::At {
        line: 2,
        column: 10,
        reason: TaskReason::TooManyJobs,
    };
    let keys = RandomState::new(&rt)?;
    match read_tasks(rt.alloc(), keys, b"horizon 1000000000\ntask a 0 1 1 1\n") {
        Ok(_) => assert!(rt; false),
        Err(told) => assert_eq!(rt; told, fault),
    }
    Ok(())
}
