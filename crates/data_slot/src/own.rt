//! A node's own values.

ghost use Rattle.std.specs.Prelude.{◌≡◌, ℕ, ◌*◌, ◌<◌, ◌≤◌, ◌+ℤ◌, List, Option, map, length};
ghost use Rattle.std.specs.List.{flat_map};
ghost use Rattle.frames.specs.Spelling.{value_spelling};
ghost use Rattle.frames.specs.Writing.{pasted};
ghost use Rattle.agreed_state.specs.Agreed.{AgreedView};
ghost use Rattle.agreed_state.specs.Config.{IsConfig};
ghost use Rattle.protocol.specs.Configured.{setting_of};
ghost use Rattle.protocol.specs.View.{cut, first_there, own_in, own_values};
ghost use Rattle.data_slot.specs.Own.{own_by};

use agreed_state::{Config, Inputs};
use frames::put_value;
use mme_vote::Channel;

/// A value cut to the range of values.
fn cut(value: i128) -> i64
    ensures { result ≡ cut value }
{
    let limit: i128 = 4398046511104;
    if value < -limit {
        -4398046511104
    } else if value > limit {
        4398046511104
    } else {
        value as i64
    }
}

/// The first that there is, and 0 where there is none.
fn first_there(vote: Option<i64>, own: Option<i64>) -> i64
    ensures { result ≡ first_there vote own }
{
    match vote {
        Some(value) => value,
        None => match own {
            Some(value) => value,
            None => 0,
        },
    }
}

/// The last value with the step, cut to the range of values.
fn carried_on(last: i64, step: i64) -> i64
    ensures { result ≡ cut (last +ℤ step) }
{
    cut(last as i128 + step as i128)
}

/// A node's own value of a channel, by what it reads of it, and by the last vote, or else the last
/// own value.
fn own_value<const N: usize>(
    channel: &Channel<N>,
    me: u8,
    period: u32,
    reading: i64,
    last: i64,
) -> i64
    requires { me < N }
    ensures { result ≡ own_by channel.now me period reading last }
{
    match channel {
        Channel::State { start, step, .. } => {
            if period == 0 {
                start[me as usize]
            } else {
                carried_on(last, *step)
            }
        }
        Channel::Sensor { .. } | Channel::Copy { .. } => reading,
    }
}

/// What a node keeps of the values of the period before, by channel.
#[derive(Drop)]
pub struct KeptValues<'a> {
    /// The votes.
    pub votes: &'a [Option<i64>; 8],
    /// Its own values.
    pub owns: &'a [Option<i64>; 8],
}

/// A node's own values in a period by channel, with none in the places behind the channels, from
/// what it is given, and from the votes and own values of the period before.
///
/// Of a state channel it is the start in period 0, and later the last vote, or else the last own
/// value, with the step, cut to the range of values; of a sensor and of a copy channel it is the
/// reading.
pub fn own_values<const N: usize>(
    config: &Config<N>,
    me: u8,
    period: u32,
    inputs: &Inputs,
    kept: &KeptValues<'_>,
) -> [Option<i64>; 8]
    requires config { IsConfig N config.now }
    requires me { me < N }
    ensures { (state : Option AgreedView) (carried : List ℕ) → result ≡
        own_values (setting_of config.now) me period inputs.now (record {
          state = state;
          carried = carried;
          votes = kept.now.votes.now;
          owns = kept.now.owns.now;
        }) }
{
    let votes = kept.votes;
    let owns = kept.owns;
    let mut values = [None; 8];
    for c in 0..config.channels.len() {
        values[c] = Some(own_value(
            &config.channels[c],
            me,
            period,
            inputs.reading[c],
            first_there(votes[c], owns[c]),
        ));
    }
    values
}

/// A node's own value of a channel, and 0 where it has none.
pub fn own_in(own: &[Option<i64>; 8], c: u8) -> i64
    ensures { result ≡ own_in own.now c }
{
    match own.get(c as usize) {
        Some(Some(value)) => *value,
        Some(None) | None => 0,
    }
}

/// Writes a node's own values of the due channels to the front of `out`, 8 bytes each.
pub fn put_values(own: &[Option<i64>; 8], due: &[u8], out: &mut [u8])
    requires { 8 * length due.now ≤ length out.old }
    ensures { out.new ≡ pasted 0 (flat_map value_spelling (map (own_in own.now) due.now)) out.old }
{
    for k in 0..due.len() {
        put_value(out, k, own_in(own, due[k]));
    }
}
