//! First frames.

ghost use Rattle.std.specs.Prelude.{◌≡◌, ℕ, ◌<◌, ◌≤◌, Some};
ghost use Rattle.frames.specs.Seen.{content, expected, HasWidth};
ghost use Rattle.frames.specs.Spelling.{IsInRange};
ghost use Rattle.fault_classes.specs.Change.{change_of};
ghost use Rattle.protocol.specs.Talk.{arrives};
ghost use Rattle.touched_items.specs.Items.{first_content, told_item};

use crate::item::{First, Item};
use crate::told::Told;
use fault_classes::Effect;
use frames::{Body, Expect, Frame};
use node_grid::kind::MALFORMED;
use node_grid::{Capacity, Nodes};
use omh_paths::Wrapped;
use touched_frames::{Arrived, arrives};

/// The body of a sender's first frame: Cold of one that tells nothing.
fn first_body<V: Item<N>, const N: usize>(said: &Wrapped<V>) -> Body<'static, N>
    ensures says { (nodes : ℕ) → content nodes result ≡ first_content V.form said.now }
    ensures widths { (nodes : ℕ) → HasWidth nodes result }
{
    let Wrapped::Plain(item) = said else {
        return Body::Cold;
    };
    match item.first() {
        First::Claim(task) => Body::Done0(task),
        First::Row(row) => Body::Report0(row),
    }
}

/// The item that a frame tells of its sender, or None where it tells none.
fn item_in<V: Item<N>, const N: usize>(body: &Body<'_, N>) -> Option<V>
    ensures { (nodes : ℕ) → result ≡ V.form.item_in (content nodes body.now) }
{
    match body {
        Body::Done0(task) => V::of_claim(*task),
        Body::Report0(row) => V::of_masks(&row.masks),
        Body::State(_) | Body::DoneRelay(_) | Body::Data(_) => None,
        Body::ReportRelay(_) | Body::Cold => None,
    }
}

/// What a receiver has of an item from its sender's own frame with this effect, where the sender
/// tells it, or is cold and tells nothing (`Fault`).
pub fn first_frame<V: Item<N>, const N: usize>(
    effect: &Effect,
    expect: &Expect<N>,
    said: &Wrapped<V>,
) -> Told<V>
where
    Nodes: Capacity<N>,
    requires some_nodes { 0 < expect.now.nodes }
    requires nodes { expect.now.nodes ≤ N }
    requires rounds { expect.now.m ≤ 3 }
    requires said { IsInRange (expected expect.now) (first_content V.form said.now) }
    ensures { told_item result ≡
        arrives V.form.item_in (Some (change_of effect.now)) (expected expect.now)
        (expected expect.now) (first_content V.form said.now) }
{
    let frame = Frame {
        head: expect.head(),
        body: first_body(said),
    };
    let mut room = [0; 64];
    match &arrives(effect, &frame, expect, &mut room) {
        Arrived::Bad(kind) => Told::Bad(*kind),
        Arrived::Good(body) => match item_in(body) {
            Some(item) => Told::Good(item),
            None => Told::Bad(MALFORMED),
        },
    }
}
