//! Reading frames.

ghost use Rattle.std.specs.Prelude.{◌≡◌, ◌↔◌, IsTrue, ◌+◌, ◌-◌, ◌*◌, ◌/◌, ◌<◌, ◌≤◌, ◌==◌, ◌&&◌};
ghost use Rattle.std.specs.Prelude.{List, length, IfSome, IfNone, option_map, take, drop};
ghost use Rattle.std.specs.List.{list_all};
ghost use Rattle.frames.specs.Content.{Content, entries_due, round_in};
ghost use Rattle.frames.specs.Spelling.{IsFrame, head_of, header_spelling};
ghost use Rattle.frames.specs.Reading.{reading, pieces_of_width, fits_claim, fits_value};
ghost use Rattle.frames.specs.Checks.{is_claim_entry, is_row_entry, is_value, are_masks, has_claim};
ghost use Rattle.frames.specs.Checks.{has_claims, has_values, has_row, has_rows, IsBody};
ghost use Rattle.frames.specs.Seen.{content, expected, HasWidth};

use crate::cells::{Cells, read_row};
use crate::encoding::{HEADER, is_header};
use crate::frame::{Body, Expect, Frame};
use crate::kind::Kind;
use crate::pieces::{are_masks, are_zero};
use crate::values::{Values, read_value};
use node_grid::{Capacity, NO_CLAIM, Nodes};
use omh_paths::count_paths;

/// Values lie from minus this to this.
const VALUE_LIMIT: i64 = 1 << 42;

/// Whether a claim is a task or `NO_CLAIM`.
fn is_claim(task: u8, tasks: u8) -> bool
    ensures { result ≡ fits_claim tasks task }
{
    task == NO_CLAIM || task < tasks
}

/// Whether a value is in range.
fn is_value(value: i64) -> bool
    ensures { result ≡ fits_value value }
{
    -VALUE_LIMIT <= value && value <= VALUE_LIMIT
}

/// Whether two bytes are an entry of a relayed claim.
fn is_claim_entry(entry: &[u8], tasks: u8, round: u8) -> bool
    requires { length entry.now ≡ 2 }
    ensures { result ≡ is_claim_entry tasks round entry.now }
{
    if entry[0] == 0 {
        is_claim(entry[1], tasks)
    } else {
        entry[0] <= round && entry[1] == 0
    }
}

/// Whether bytes are an entry of a relayed row.
fn is_row_entry(version: u8, entry: &[u8], round: u8) -> bool
    requires { 1 ≤ length entry.now }
    ensures { result ≡ is_row_entry version round entry.now }
{
    if entry[0] == 0 {
        are_masks(version, &entry[1..])
    } else {
        entry[0] <= round && are_zero(&entry[1..])
    }
}

/// Whether the bytes are entries of relayed claims.
fn are_claims(body: &[u8], tasks: u8, round: u8) -> bool
    ensures { result ≡ list_all (is_claim_entry tasks round) (pieces_of_width 2 body.now) }
{
    for k in 0..body.len() / 2 {
        if !is_claim_entry(&body[2 * k..2 * k + 2], tasks, round) {
            return false;
        }
    }
    true
}

/// Whether the bytes are entries of relayed rows, of so many bytes each: one by one.
fn is_each_row(version: u8, body: &[u8], width: usize, round: u8) -> bool
    requires { 1 ≤ width }
    ensures { result ≡ list_all (is_row_entry version round) (pieces_of_width width body.now) }
{
    for k in 0..body.len() / width {
        if !is_row_entry(version, &body[width * k..width * k + width], round) {
            return false;
        }
    }
    true
}

/// Whether the first so many bytes come again and again.
fn is_repeated(body: &[u8], width: usize) -> bool
    requires { width ≤ length body.now }
    ensures { IsTrue result → take (length body.now - width) body.now ≡ drop width body.now }
{
    let (back, front) = (&body[width..], &body[..body.len() - width]);
    front == back
}

/// Whether the bytes are entries of relayed rows, of so many bytes each.
///
/// In version 1 each mask is looked at; where all entries are the same, those of one are enough.
fn are_rows(version: u8, body: &[u8], width: usize, round: u8) -> bool
    requires { 1 ≤ width }
    ensures { result ≡ list_all (is_row_entry version round) (pieces_of_width width body.now) }
{
    if version == 1 && width <= body.len() && is_repeated(body, width) {
        return is_row_entry(version, &body[..width], round);
    }
    is_each_row(version, body, width, round)
}

/// Whether the bytes are values in range.
fn are_values(body: &[u8]) -> bool
    ensures { result ≡ list_all is_value (pieces_of_width 8 body.now) }
{
    for k in 0..body.len() / 8 {
        if !is_value(read_value(body, k)) {
            return false;
        }
    }
    true
}

impl<const N: usize> Expect<N> {
    /// The relay round of the slot.
    fn round(&self) -> u8
        requires { self.now.m ≤ 3 }
        ensures { result ≡ round_in self.now.m self.now.slot }
    {
        if self.slot <= self.m + 1 {
            self.slot.saturating_sub(1)
        } else {
            self.slot.saturating_sub(self.m + 3)
        }
    }

    /// The number of entries of a relay frame: one for each path of as many members, without the
    /// sender, as its round.
    fn entries_due(&self) -> usize
    where
        Nodes: Capacity<N>,
        requires rounds { self.now.m ≤ 3 }
        requires round { round_in self.now.m self.now.slot ≤ 3 }
        ensures number { result ≡ entries_due (expected self.now) }
        ensures few { result ≤ 4096 }
    {
        if self.members.has(self.sender) {
            count_paths(self.members.len().saturating_sub(1), self.round())
        } else {
            0
        }
    }

    /// Whether the bytes are a claim.
    fn has_claim(&self, bytes: &[u8]) -> bool
        ensures { result ≡ has_claim (expected self.now) bytes.now }
    {
        bytes.len() == 1 && is_claim(bytes[0], self.tasks)
    }

    /// Whether the bytes are the relayed claims that are due.
    fn has_claims(&self, bytes: &[u8]) -> bool
    where
        Nodes: Capacity<N>,
        requires rounds { self.now.m ≤ 3 }
        requires round { round_in self.now.m self.now.slot ≤ 3 }
        ensures { result ≡ has_claims (expected self.now) bytes.now }
    {
        bytes.len() == 2 * self.entries_due() && are_claims(bytes, self.tasks, self.round())
    }

    /// Whether the bytes are the values that are due.
    fn has_values(&self, bytes: &[u8]) -> bool
        ensures { result ≡ has_values (expected self.now) bytes.now }
    {
        bytes.len() == 8 * self.due as usize && are_values(bytes)
    }

    /// Whether the bytes are a row.
    fn has_row(&self, bytes: &[u8]) -> bool
        ensures { result ≡ has_row (expected self.now) bytes.now }
    {
        bytes.len() == 2 * self.nodes as usize && are_masks(self.version, bytes)
    }

    /// Whether the bytes are the relayed rows that are due.
    fn has_rows(&self, bytes: &[u8]) -> bool
    where
        Nodes: Capacity<N>,
        requires rounds { self.now.m ≤ 3 }
        requires round { round_in self.now.m self.now.slot ≤ 3 }
        ensures { result ≡ has_rows (expected self.now) bytes.now }
    {
        let width = self.row_width();
        bytes.len() == width * self.entries_due()
            && are_rows(self.version, bytes, width, self.round())
    }

    /// The number of bytes of an entry of relayed rows.
    pub(crate) fn row_width(&self) -> usize
        ensures { result ≡ 1 + 2 * self.now.nodes }
    {
        1 + 2 * self.nodes as usize
    }
}

/// What a body of a kind says; None exactly where it isn't in the grammar of the kind, or has no
/// place in the slot.
fn body_of<'a, const N: usize>(expect: &Expect<N>, kind: u8, bytes: &'a [u8]) -> Option<Body<'a, N>>
where
    Nodes: Capacity<N>,
    requires some_nodes { 0 < expect.now.nodes }
    requires nodes { expect.now.nodes ≤ N }
    requires rounds { expect.now.m ≤ 3 }
    ensures some { IfSome result (λ b. IsBody (expected expect.now) kind
        (content expect.now.nodes b) bytes.now) }
    ensures widths { IfSome result (λ b. HasWidth expect.now.nodes b) }
    ensures none { IfNone result ((c : Content) → IsBody (expected expect.now) kind c bytes.now →
        ⊥) }
{
    if kind == Kind::Cold.number() {
        return if bytes.is_empty() {
            Some(Body::Cold)
        } else {
            None
        };
    }
    let placed = Kind::in_slot(expect.m, expect.slot);
    if kind != placed.number() {
        return None;
    }
    macro_rules! bodies {
        ($($kind:ident if $test:expr => $body:expr,)*) => {
            match placed {
                $(Kind::$kind => if $test { Some($body) } else { None },)*
                Kind::Cold => None,
            }
        };
    }
    bodies! {
        State if bytes.len() == expect.state_len as usize => Body::State(bytes),
        Done0 if expect.has_claim(bytes) => Body::Done0(bytes[0]),
        DoneRelay if expect.has_claims(bytes) => Body::DoneRelay(Cells::over(bytes, 2)),
        Data if expect.has_values(bytes) => Body::Data(Values::over(bytes)),
        Report0 if expect.has_row(bytes) => Body::Report0(read_row(bytes, expect.nodes)),
        ReportRelay if expect.has_rows(bytes) => Body::ReportRelay(Cells::over(bytes, expect.row_width())),
    }
}

/// Whether the first bytes are the header that is expected of a frame of this kind and size.
fn has_header<const N: usize>(expect: &Expect<N>, front: &[u8], kind: u8, size: u32) -> bool
    ensures { IsTrue result ↔ (front.now ≡ header_spelling (head_of (expected expect.now)) kind
        size) }
{
    is_header(front, expect.head(), kind, size)
}

/// The frame that the bytes are for what is expected, by the relation between bytes and contents.
fn frame_of<'a, const N: usize>(expect: &Expect<N>, bytes: &'a [u8]) -> Option<Frame<'a, N>>
where
    Nodes: Capacity<N>,
    requires some_nodes { 0 < expect.now.nodes }
    requires nodes { expect.now.nodes ≤ N }
    requires rounds { expect.now.m ≤ 3 }
    ensures head { IfSome result (λ f. f.head ≡ head_of (expected expect.now)) }
    ensures some { IfSome result (λ f. IsFrame (expected expect.now)
        (content expect.now.nodes f.body) bytes.now) }
    ensures widths { IfSome result (λ f. HasWidth expect.now.nodes f.body) }
    ensures none { IfNone result ((c : Content) → IsFrame (expected expect.now) c bytes.now → ⊥) }
{
    if bytes.len() < HEADER {
        return None;
    }
    let (front, body) = bytes.split_at(HEADER);
    let Ok(size) = u32::try_from(body.len()) else {
        return None;
    };
    let kind = front[3];
    if !has_header(expect, front, kind, size) {
        return None;
    }
    let Some(body) = body_of(expect, kind, body) else {
        return None;
    };
    Some(Frame {
        head: expect.head(),
        body,
    })
}

/// The frame that the bytes are for what is expected.
///
/// Answers None exactly where they are none: a field of the header is another one, a byte is
/// missing or left over, the kind has no place in the slot, or the body isn't in the grammar of its
/// kind. Any bytes may be given.
pub fn decode<'a, const N: usize>(expect: &Expect<N>, bytes: &'a [u8]) -> Option<Frame<'a, N>>
where
    Nodes: Capacity<N>,
    requires some_nodes { 0 < expect.now.nodes }
    requires nodes { expect.now.nodes ≤ N }
    requires rounds { expect.now.m ≤ 3 }
    ensures head { IfSome result (λ f. f.head ≡ head_of (expected expect.now)) }
    ensures some { IfSome result (λ f. IsFrame (expected expect.now)
        (content expect.now.nodes f.body) bytes.now) }
    ensures widths { IfSome result (λ f. HasWidth expect.now.nodes f.body) }
    ensures none { IfNone result ((c : Content) → IsFrame (expected expect.now) c bytes.now → ⊥) }
    ensures reading { option_map (λ f. content expect.now.nodes f.body) result
        ≡ reading (expected expect.now) bytes.now }
{
    frame_of(expect, bytes)
}
