//! Replays a scenario of a cluster of operations controllers, and prints what every node believes.
//! The theorem is clause `done` of [`maft`]: for every accepted scenario, and every period up to
//! which all periods' members satisfy n > 2a + 2s + b + m with a at most m, the sound nodes hold
//! equal penalty counts, memberships and schedules; no node that was nonfaulty throughout is
//! penalised or excluded; what every nonfaulty member reports of a node raises its count by the
//! configured weights, up to the cap; and votes lie within the nonfaulty members' own values, at
//! most half of their spread apart, rounded up. Besides, no sound node convicts a member that isn't
//! asymmetric of telling different things, and each convicts one of which enough nonfaulty members
//! heard something else than it did; votes of a task's copies lie within the values of the
//! nonfaulty nodes of their group, as near as that, where the group keeps its own bound; and the
//! clocks of sound nodes are, after the period, at most half as far apart as those of the nonfaulty
//! members were, rounded up, and twice epsilon and drift. It holds of the run whose text was
//! written.
//!
//! Premise by premise, with the file in which each word is defined:
//!
//! | Words | Definition |
//! |---|---|
//! | the words are `replay`, `replay trace` or `check`, and the answer is Done | `Calls` in specs/Words |
//! | the bytes are all bytes of the source, where it tells them | `IsRead` and `IsWhole` in specs/Answers |
//! | the text that was written is that of a scenario, whose claimed periods keep what is promised | `HasText` in specs/Answers, `IsSafeRun` in specs/Run, `Promises` in cluster_periods/specs/Laws |
//! | accepted scenario: the bytes are JSON text of parts that no rule refuses | `IsAcceptedText` in specs/Answers; in scenario_reading/specs `Reads` of Reading, `parts_read` of Keys; in scenario/specs `refusal` of Rules |
//! | what the scenario says | `scenario_of` in scenario/specs/Given, `system_of` in scenario/specs/Scenario |
//! | its run: what all nodes send, hear, settle and keep | `run` in protocol/specs/Run, `view` in protocol/specs/Cluster and View |
//! | classes of nodes; sound, nonfaulty | `class_of` in fault_classes/specs/Plan |
//! | members; n, a, s, b; every period up to which | `members_at`, `KeepsBound` and `Claim` in protocol/specs/Safe |
//! | equal counts, memberships and schedules | `Equal` in protocol/specs/Safe |
//! | neither penalised nor excluded | `Unpunished` there |
//! | raises its count | `FullyCharged` there; of a nonfaulty member it needs a relay round |
//! | votes; votes of copies, their group | `VotesClose`, `CopiesClose`, `group_at` there |
//! | convicts; enough nonfaulty members | `convicts` in equivocation/specs/Conviction; `ConvictsWell` in safety/specs/Convictions |
//! | clocks; half as far apart | `offsets`, `ClocksNear` in protocol/specs/Clocks |
//! | the text of the run | `run_text` in specs/Run; `period_record` in cluster_periods/specs/Record; run_text/specs PeriodText, NodeText, TraceText |
//! | a period's line says `claim yes` exactly where the period is claimed | `told` of `IsSafeRun` in specs/Run |
//!
//! For `storm SEED` nothing is read, and all periods of that storm are claimed and keep what is
//! promised (`Withstands` in storm_sum/specs/Laws). For `node I` the text is what the node believed
//! by its log (`view_alone` in node_alone/specs/View); of it nothing is claimed but that, and law
//! `accepted_logs`: a log of what a run delivers has the text of that node's lines in the run's
//! replay, but for the class.
//!
//! What is accepted is a scenario of which the laws speak: law `accepted` of scenario, and from it
//! `accepted_runs` and `accepted_logs` of this crate. The program `maft` makes the devices and
//! leaves with what [`run`] answers, which is the number of the status of [`maft`].
//!
//! Nothing else is assumed. A source and a sink that don't tell their bytes are promised nothing of
//! bytes. Want of memory is the one free answer; each other answer says its cause, and the bytes
//! decide it where no device failed.
#![tactic(auto)]

mod alone;
mod form;
pub mod laws;
mod program;
mod replay;

pub use form::{Command, Form, Reading};
pub use program::{maft, run};
pub use program_words::Status;
pub use replay::{ReplayError, replay_at};
