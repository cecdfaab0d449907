//! Scenarios that a rule refuses, which are read from JSON text: the rule and the place.

use scenario::ScenarioError;
use scenario_reading::read;
use std::alloc::{AllocError, Global};
use std::io;

/// The policy of version 1.
const POLICY: &str =
    r#"{"policy":{"weights":[5,5,5,5,5,5,5,5],"exclude":20,"readmit":4,"credit":1,"streak":2,"cap":100},"#;

/// Version 2, and its policy.
const SECOND: &str =
    r#"{"version":2,"policy":{"weights":[5,5,5,5,5,5,5,5,5,5,5,5,5,5,5,5],"exclude":20,
"readmit":4,"credit":1,"streak":2,"cap":100},"#;

/// What is asked, and what such a text has beside the policy.
type Rest = (&'static str, &'static str);

const NUMBERS: [Rest; 6] = [
    (
        "three nodes in one period",
        r#""nodes":3,"m":0,"periods":1}"#,
    ),
    ("two nodes", r#""nodes":2,"m":0,"periods":1}"#),
    ("version 3", r#""version":3,"nodes":3,"m":0,"periods":1}"#),
    (
        "three relay rounds among three nodes",
        r#""nodes":3,"m":3,"periods":1}"#,
    ),
    (
        "tasks begin anew after no period",
        r#""nodes":3,"m":0,"periods":1,"frame":0}"#,
    ),
    (
        "node 3 of three is delivered first",
        r#""nodes":3,"m":0,"periods":1,"order":3}"#,
    ),
];

const CHANNELS_AND_TASKS: [Rest; 4] = [
    (
        "a second channel that starts at two nodes of three",
        r#""nodes":3,"m":0,"periods":1,"channels":[
{"kind":"state","delta":1,"start":[0,0,0],"step":0},{"kind":"state","delta":1,"start":[0,0],"step":0}]}"#,
    ),
    (
        "starts that are two apart where delta is one",
        r#""nodes":3,"m":0,"periods":1,"channels":[{"kind":"state","delta":1,"start":[0,1,2],"step":0}]}"#,
    ),
    (
        "a task that needs two copies of one node",
        r#""nodes":3,"m":0,"periods":1,"tasks":[
{"after":[],"nodes":[0],"need":2,"min":1,"max":1,"run":[1]}]}"#,
    ),
    (
        "a second task that comes after itself",
        r#""nodes":3,"m":0,"periods":1,"tasks":[
{"after":[],"nodes":[0],"need":1,"min":1,"max":1,"run":[1]},
{"after":[1],"nodes":[0],"need":1,"min":1,"max":1,"run":[1]}]}"#,
    ),
];

const FAULTS: [Rest; 4] = [
    (
        "a line of node 3 of three",
        r#""nodes":3,"m":0,"periods":1,"faults":[
{"from":3,"to":"all","periods":[0,0],"slots":"all","effect":"drop"}]}"#,
    ),
    (
        "two equal lines",
        r#""nodes":3,"m":0,"periods":1,"faults":[
{"from":0,"to":"all","periods":[0,0],"slots":"all","effect":"drop"},
{"from":0,"to":"all","periods":[0,0],"slots":"all","effect":"drop"}]}"#,
    ),
    (
        "a restart behind all periods",
        r#""nodes":3,"m":0,"periods":1,"restarts":[{"node":0,"period":1}]}"#,
    ),
    (
        "in version 1 there are clocks",
        r#""nodes":3,"m":0,"periods":1,
"clock":{"epsilon":0,"drift":0,"start":[0,0,0],"drifts":[[0,0,0]],"errors":[[0,0,0]],"lies":[]}}"#,
    ),
];

const CLOCKS: [Rest; 4] = [
    (
        "in version 2 there are clocks",
        r#""nodes":3,"m":0,"periods":1,
"clock":{"epsilon":0,"drift":0,"start":[0,0,0],"drifts":[[0,0,0]],"errors":[[0,0,0]],"lies":[]}}"#,
    ),
    (
        "they are read with an error of 1 where it is at most 0",
        r#""nodes":3,"m":0,"periods":1,
"clock":{"epsilon":0,"drift":0,"start":[0,0,0],"drifts":[[0,0,0]],"errors":[[0,0,1]],"lies":[]}}"#,
    ),
    (
        "a node lies that no line touches",
        r#""nodes":3,"m":0,"periods":1,
"clock":{"epsilon":0,"drift":0,"start":[0,0,0],"drifts":[[0,0,0]],"errors":[[0,0,0]],"lies":[
{"from":0,"to":[1],"periods":[0,0],"by":5}]}}"#,
    ),
    (
        "nine nodes with room for 8",
        r#""nodes":9,"m":0,"periods":1}"#,
    ),
];

/// Texts that have no policy, or none that is read.
const TEXTS: [Rest; 5] = [
    ("no text", ""),
    ("a number", "5"),
    ("no keys", "{}"),
    ("a number that is infinite", "1e400"),
    (
        "exclude above the cap",
        r#"{"nodes":3,"m":0,"periods":1,
"policy":{"weights":[5,5,5,5,5,5,5,5],"exclude":101,"readmit":4,"credit":1,"streak":2,"cap":100}}"#,
    ),
];

/// Two texts, one after the other.
fn joined(alloc: Global, begin: &str, rest: &str) -> Result<Vec<u8>, AllocError> {
    let mut bytes = Vec::from_slice(alloc, begin.as_bytes())?;
    for byte in rest.as_bytes() {
        bytes.push(*byte)?;
    }
    Ok(bytes)
}

/// How many nodes the scenario of a text has.
fn nodes_of(alloc: Global, bytes: &[u8]) -> Result<u8, ScenarioError> {
    let scenario = read::<8>(alloc, bytes)?;
    Ok(scenario.config().nodes)
}

/// Prints what is answered to this text.
fn answer(rt: &HostRuntime, asked: &str, bytes: &[u8]) -> io::Result<()> {
    match nodes_of(rt.alloc(), bytes) {
        Ok(nodes) => println!(rt; "{asked}: a scenario of {nodes} nodes"),
        Err(error) => println!(rt; "{asked}: {error}"),
    }
}

/// Prints what is answered to a text that begins so.
fn tell_one(rt: &HostRuntime, begin: &str, rest: &Rest) -> anyhow::Result<()> {
    let bytes = joined(rt.alloc(), begin, rest.1)?;
    Ok(answer(rt, rest.0, bytes.as_slice())?)
}

/// Prints what is answered to each of these behind such a begin.
fn tell(rt: &HostRuntime, begin: &str, rests: &[Rest]) -> anyhow::Result<()> {
    for rest in rests {
        tell_one(rt, begin, rest)?;
    }
    Ok(())
}

pub fn print(rt: &HostRuntime) -> anyhow::Result<()> {
    tell(rt, POLICY, &NUMBERS)?;
    tell(rt, POLICY, &CHANNELS_AND_TASKS)?;
    tell(rt, POLICY, &FAULTS)?;
    tell(rt, SECOND, &CLOCKS)?;
    tell(rt, "", &TEXTS)
}
