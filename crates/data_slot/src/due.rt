//! Which channels are due.

ghost use Rattle.std.specs.Prelude.{◌≡◌, length, slice_index_or};
ghost use Rattle.node_grid.specs.NodeSet.{ids_where};
ghost use Rattle.mme_vote.specs.Channel.{task_of};
ghost use Rattle.agreed_state.specs.Config.{IsConfig, IsTaskBelow};
ghost use Rattle.protocol.specs.View.{no_channel};
ghost use Rattle.data_slot.specs.Due.{due_by};

use agreed_state::Config;
use arrayvec::ArrayVec;
use mme_vote::Channel;

/// Whether a channel is due, where these tasks are finished now.
fn is_due<const N: usize>(channel: &Channel<N>, finished: u32) -> bool
    requires { IsTaskBelow 32 (task_of channel.now) }
    ensures { result ≡ due_by channel.now finished }
{
    match channel.task() {
        None => true,
        Some(task) => (finished >> task) & 1 == 1,
    }
}

/// The due channels, in ascending order: those without a task, and those whose task is finished
/// now. Bit t of `finished` is set where task t is.
pub fn due_channels<const N: usize>(config: &Config<N>, finished: u32) -> ArrayVec<u8, 8>
    requires config { IsConfig N config.now }
    ensures { result.items ≡ ids_where
        (λ c. due_by (slice_index_or config.now.channels.items c no_channel) finished)
        (length config.now.channels.items) }
{
    let mut due = ArrayVec::new();
    for c in 0..config.channels.len() {
        if is_due(&config.channels[c], finished) {
            due.push(c as u8);
        }
    }
    due
}
