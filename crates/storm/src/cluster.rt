//! What is the same in each storm: the policy, the channels and the tasks.
ghost use Rattle.std.specs.Prelude.{◌≡◌, [], ◌∷◌, ◌++◌, map, IfOk, OnOk};
ghost use Rattle.scenario.specs.Seen.{policy_view, channel_view, task_view};
ghost use Rattle.storm.specs.Parts.{storm_policy, storm_channels, storm_tasks};

use scenario::{ChannelPart, PolicyPart, TaskPart};
use std::alloc::{AllocError, Global};

/// The policy.
pub fn policy(alloc: Global) -> Result<PolicyPart, AllocError>
    ensures { IfOk result (λ p. policy_view p ≡ storm_policy) }
{
    Ok(PolicyPart {
        weights: Vec::from_slice(alloc, &[5, 5, 5, 1, 5, 5, 5, 5])?,
        exclude: 20,
        readmit: 4,
        credit: 1,
        streak: 2,
        cap: 40,
        retire: 0,
    })
}

/// Adds a row of readings.
fn push_row(rows: &mut Vec<Vec<i64>>, alloc: Global, row: &[i64]) -> Result<(), AllocError>
    ensures { OnOk result (map (λ r. r.items) rows.new.items ≡ map (λ r. r.items) rows.old.items
        ++ row.now ∷ []) }
{
    rows.push(Vec::from_slice(alloc, row)?)?;
    Ok(())
}

/// The channels: a state, a sensor, and a sensor that is voted where the last task finishes.
pub fn channels(alloc: Global) -> Result<Vec<ChannelPart>, AllocError>
    ensures { IfOk result (λ cs. map channel_view cs.items ≡ storm_channels) }
{
    let mut channels = Vec::new(alloc);
    channels.push(ChannelPart::State {
        delta: 10,
        start: Vec::from_slice(alloc, &[1000, 1002, 1004, 1001, 1003, 1005, 1002, 1000])?,
        step: 5,
    })?;
    let mut sensor = Vec::new(alloc);
    push_row(
        &mut sensor,
        alloc,
        &[200, 202, 201, 203, 204, 200, 202, 201],
    )?;
    push_row(
        &mut sensor,
        alloc,
        &[210, 211, 212, 210, 213, 214, 211, 212],
    )?;
    channels.push(ChannelPart::Sensor {
        delta: 6,
        task: None,
        readings: sensor,
    })?;
    let mut sensor_of_task = Vec::new(alloc);
    push_row(&mut sensor_of_task, alloc, &[7, 8, 7, 8, 7, 8, 7, 8])?;
    channels.push(ChannelPart::Sensor {
        delta: 2,
        task: Some(5),
        readings: sensor_of_task,
    })?;
    Ok(channels)
}

/// Tasks, in the order of their priority.
#[derive(Drop)]
struct TaskList {
    alloc: Global,
    tasks: Vec<TaskPart>,
}

impl TaskList {
    /// Adds a task whose run times lie between two numbers of periods.
    fn push(
        &mut self,
        after: &[i64],
        nodes: &[i64],
        need: i64,
        between: (i64, i64),
        run: &[i64],
    ) -> Result<(), AllocError>
        ensures { OnOk result (map task_view self.new.tasks.items
            ≡ map task_view self.old.tasks.items ++ record {
              after = after.now;
              nodes = nodes.now;
              need = need;
              min = between.0;
              max = between.1;
              run = run.now;
            } ∷ []) }
    {
        self.tasks.push(TaskPart {
            after: Vec::from_slice(self.alloc, after)?,
            nodes: Vec::from_slice(self.alloc, nodes)?,
            need,
            min: between.0,
            max: between.1,
            run: Vec::from_slice(self.alloc, run)?,
        })?;
        Ok(())
    }
}

/// The tasks, in the order of their priority.
pub fn tasks(alloc: Global) -> Result<Vec<TaskPart>, AllocError>
    ensures { IfOk result (λ ts. map task_view ts.items ≡ storm_tasks) }
{
    let mut list = TaskList {
        alloc,
        tasks: Vec::new(alloc),
    };
    list.push(&[], &[0, 1, 2], 2, (1, 3), &[2, 2, 3])?;
    list.push(&[], &[3, 4, 5], 2, (1, 2), &[1, 1, 2])?;
    list.push(&[0], &[0, 1], 1, (1, 2), &[1, 2])?;
    list.push(&[0, 1], &[2, 3], 1, (1, 3), &[1, 2])?;
    list.push(&[2], &[4], 1, (1, 1), &[1])?;
    list.push(&[3, 4], &[5], 1, (1, 2), &[1])?;
    Ok(list.tasks)
}
