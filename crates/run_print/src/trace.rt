//! The printed frames of a period.
ghost use Rattle.std.specs.Prelude.{◌≡◌, ℕ, true, [], ◌++◌, if◌then◌else◌, ◌≢◌, ◌+◌, ◌*◌, ◌≤◌, ◌<◌};
ghost use Rattle.std.specs.Prelude.{codes, decimal, length, replicate, slice_index};
ghost use Rattle.arrayvec.specs.ArrayVec.{array_vec_len};
ghost use Rattle.std.specs.List.{flat_map};
ghost use Rattle.hex.specs.Hex.{encode_lower, lower_digits};
ghost use Rattle.slot_plan.specs.Slots.{slot_count};
ghost use Rattle.slot_plan.specs.Ticks.{on_time};
ghost use Rattle.fault_classes.specs.Line.{effect_at};
ghost use Rattle.fault_link.specs.Arrival.{delivered_of};
ghost use Rattle.cluster_periods.specs.Record.{frame_at};
ghost use Rattle.run_print.specs.Printing.{Prints};
ghost use Rattle.run_text.specs.TraceText.{IsPlanOf, bytes_text, start_text, arrival_text};
ghost use Rattle.run_text.specs.TraceText.{frame_text, link_text, sender_text, slot_text};
ghost use Rattle.run_text.specs.TraceText.{frames_text};

use crate::printer::Printer;
use arrayvec::ArrayVec;
use cluster_record::{LONGEST_FRAME, PeriodRecord};
use fault_classes::FaultPlan;
use fault_link::{Delivered, Transmission, deliveries};
use itoa::{Buffer, Integer};
use node_grid::{Capacity, Nodes};
use slot_plan::slot_count;
use span_io::Sink;

/// The length up to which frames are short.
const SHORT_FRAME: usize = 1024;

/// How many bytes are put into hexadecimal at once, where a fault line touches a frame.
const PIECE: usize = 512;

/// How many bytes stand before and behind the digits in the rest of a line.
const AROUND: usize = 5;

/// Room for a slot in which all frames are short.
const SHORT_ROOM: usize = 3 * SHORT_FRAME + AROUND;

/// Room for a slot of any frames.
const LONG_ROOM: usize = 3 * LONGEST_FRAME + AROUND;

/// Room for the start of a line: a word, three numbers, and the spaces behind them.
type Start = ArrayVec<u8, 32>;

/// A slot of a period whose frames are printed, and the plan by which they arrive.
#[derive(Drop)]
struct TracedSlot<'p, const N: usize> {
    shown: &'p PeriodRecord<N>,
    plan: &'p FaultPlan<N>,
    slot: u8,
    ghost in_period: { slot < slot_count shown.now.m },
    ghost nodes: { plan.now.nodes ≡ shown.now.nodes },
    ghost rounds: { plan.now.rounds ≡ shown.now.m },
    ghost periods: { shown.now.period < plan.now.periods },
}

/// How many slots a period has, by the relay rounds of the plan.
fn slots_of<const N: usize>(plan: &FaultPlan<N>, rounds: u8) -> u8
    requires { plan.now.rounds ≡ rounds }
    ensures { result ≡ slot_count rounds }
{
    // the plan's own clause bounds its rounds
    let _ = plan.line_count();
    slot_count(rounds)
}

/// The digit of a number below 16.
fn digit(n: u8) -> u8
    requires { n < 16 }
    ensures { result ≡ slice_index lower_digits n }
{
    if n < 10 { b'0' + n } else { b'a' - 10 + n }
}

/// Writes bytes in hexadecimal.
fn spell(bytes: &[u8], digits: &mut [u8])
    requires { length digits.old ≡ 2 * length bytes.now }
    ensures { digits.new ≡ encode_lower bytes.now }
{
    for i in 0..bytes.len() {
        let byte = bytes[i];
        digits[2 * i] = digit(byte >> 4);
        digits[2 * i + 1] = digit(byte & 15);
    }
}

/// The rest of the line of a frame that arrives as it was sent, behind its receiver, in this room.
fn rest_of<'a>(bytes: &[u8], room: &'a mut [u8]) -> &'a [u8]
    requires { 2 * length bytes.now + 5 ≤ length room.old }
    ensures { result.now ≡ codes " 15 " ++ bytes_text bytes.now ++ codes "\n" }
{
    if bytes.is_empty() {
        return b" 15 -\n";
    }
    let end = 4 + 2 * bytes.len();
    room[..4].copy_from_slice(b" 15 ");
    spell(bytes, &mut room[4..end]);
    room[end] = b'\n';
    &room[..end + 1]
}

/// Appends a piece of text.
fn put(start: &mut Start, bytes: &[u8])
    requires { array_vec_len start.old + length bytes.now ≤ 32 }
    ensures items { start.new.items ≡ start.old.items ++ bytes.now }
    ensures len { array_vec_len start.new ≡ array_vec_len start.old + length bytes.now }
{
    let _ = start.try_extend_from_slice(bytes);
}

/// Appends a number in decimal.
fn put_number<I: Integer>(start: &mut Start, n: I)
    requires { array_vec_len start.old + I.MAX_STR_LEN ≤ 32 }
    ensures items { start.new.items ≡ start.old.items ++ I.text n }
    ensures len { array_vec_len start.new ≤ array_vec_len start.old + I.MAX_STR_LEN }
{
    let mut buffer = Buffer::new();
    put(start, buffer.format(n).as_bytes());
}

/// The start of the lines of a sender's frame, up to their receivers.
fn start_of(period: u32, slot: u8, from: u8) -> Start
    ensures { result.items ≡ start_text period slot from }
{
    let mut start = ArrayVec::new();
    put(&mut start, b"frame ");
    put_number(&mut start, period);
    put(&mut start, b" ");
    put_number(&mut start, slot);
    put(&mut start, b" ");
    put_number(&mut start, from);
    put(&mut start, b" ");
    start
}

/// The length of the longest frame of the slot.
fn longest<const N: usize>(traced: &TracedSlot<'_, N>) -> usize
    ensures each { (from : ℕ) → from < traced.now.shown.now.nodes
        → length (frame_at traced.now.shown.now traced.now.slot from) ≤ result }
    ensures short { result ≤ 90104 }
{
    let shown = traced.shown;
    // naming a field tells the checker the types of all of them
    let _ = &shown.classes;
    let mut most = 0;
    for from in 0..shown.nodes {
        most = most.max(shown.sent(traced.slot, from).len());
    }
    most
}

impl<const ROOM: usize> Printer<ROOM> {
    /// Prints a few bytes in hexadecimal.
    fn piece<K: Sink>(&mut self, sink: &mut K, bytes: &[u8])
        requires { length bytes.now ≤ 512 }
        ensures { Prints K.written K.faults self.old sink.old self.new sink.new
            (encode_lower bytes.now) }
    {
        let mut digits = [0; 2 * PIECE];
        let room = &mut digits[..2 * bytes.len()];
        spell(bytes, room);
        self.text(sink, room);
    }

    /// Prints bytes in hexadecimal.
    fn bytes<K: Sink>(&mut self, sink: &mut K, bytes: &[u8])
        ensures { Prints K.written K.faults self.old sink.old self.new sink.new
            (bytes_text bytes.now) }
    {
        if bytes.is_empty() {
            self.byte(sink, b'-');
            return;
        }
        let mut rest = bytes;
        for _piece in 0..bytes.len() / PIECE {
            let (front, behind) = rest.split_at(PIECE);
            self.piece(sink, front);
            rest = behind;
        }
        self.piece(sink, rest);
    }

    /// Prints the line of one frame up to its bytes, by the start of the line.
    fn arrival<K: Sink>(&mut self, sink: &mut K, start: &[u8], to: u8, tick: u8)
        ensures { Prints K.written K.faults self.old sink.old self.new sink.new
            (arrival_text start.now to tick) }
    {
        self.text(sink, start);
        self.number(sink, to as u64);
        self.byte(sink, b' ');
        self.number(sink, tick as u64);
        self.byte(sink, b' ');
    }

    /// Prints the line of one frame that arrives as it was sent, by the start and the rest of the
    /// line.
    fn untouched<K: Sink>(&mut self, sink: &mut K, start: &[u8], to: u8, rest: &[u8])
        ensures { Prints K.written K.faults self.old sink.old self.new sink.new
            (start.now ++ decimal to ++ rest.now) }
    {
        self.text(sink, start);
        self.number(sink, to as u64);
        self.text(sink, rest);
    }

    /// Prints the line of one frame that arrives.
    fn frame<K: Sink>(&mut self, sink: &mut K, start: &[u8], to: u8, tick: u8, bytes: &[u8])
        ensures { Prints K.written K.faults self.old sink.old self.new sink.new
            (frame_text start.now to (tick, bytes.now)) }
    {
        self.arrival(sink, start, to, tick);
        self.bytes(sink, bytes);
        self.byte(sink, b'\n');
    }

    /// Prints what arrives at one receiver.
    fn copies<K: Sink>(&mut self, sink: &mut K, start: &[u8], to: u8, delivered: &Delivered<'_>)
        ensures { Prints K.written K.faults self.old sink.old self.new sink.new
            (flat_map (frame_text start.now to)
            (replicate delivered.now.copies (delivered.now.tick, delivered.now.bytes.now))) }
    {
        for _copy in 0..delivered.copies {
            self.frame(sink, start, to, delivered.tick, delivered.bytes);
        }
    }

    /// Prints what arrives at each receiver of a sender's frame, with room for the frame in
    /// hexadecimal and for its bytes as a fault line changes them.
    fn receivers<K: Sink, const N: usize>(
        &mut self,
        sink: &mut K,
        traced: &TracedSlot<'_, N>,
        from: u8,
        room: &mut [u8],
    )
    where
        Nodes: Capacity<N>,
        requires from { from < traced.now.shown.now.nodes }
        requires room { 3 * length (frame_at traced.now.shown.now traced.now.slot from) + 5
            ≤ length room.old }
        ensures { Prints K.written K.faults self.old sink.old self.new sink.new
            (sender_text traced.now.plan.now traced.now.shown.now traced.now.slot from) }
    {
        let plan = traced.plan;
        let shown = traced.shown;
        let slot = traced.slot;
        // naming a field tells the checker the types of all of them
        let _ = &shown.classes;
        let sent = shown.sent(slot, from);
        let (front, changed) = room.split_at_mut(2 * sent.len() + AROUND);
        let rest = rest_of(sent, front);
        let written = start_of(shown.period, slot, from);
        let start = written.as_slice();
        for to in 0..shown.nodes {
            if to != from {
                if plan.effect(shown.period, slot, from, to).is_none() {
                    self.untouched(sink, start, to, rest);
                } else {
                    let scratch = &mut changed[..sent.len()];
                    let on = Transmission {
                        period: shown.period,
                        slot,
                        from,
                        to,
                    };
                    let delivered = deliveries(plan, on, sent, scratch);
                    self.copies(sink, start, to, &delivered);
                }
            }
        }
    }

    /// Prints all frames that arrive in a slot, with room for the longest of them.
    fn senders<K: Sink, const N: usize>(
        &mut self,
        sink: &mut K,
        traced: &TracedSlot<'_, N>,
        room: &mut [u8],
    )
    where
        Nodes: Capacity<N>,
        requires { (from : ℕ) → from < traced.now.shown.now.nodes
            → 3 * length (frame_at traced.now.shown.now traced.now.slot from) + 5
            ≤ length room.old }
        ensures { Prints K.written K.faults self.old sink.old self.new sink.new
            (slot_text traced.now.plan.now traced.now.shown.now traced.now.slot) }
    {
        let shown = traced.shown;
        // naming a field tells the checker the types of all of them
        let _ = &shown.classes;
        for from in 0..shown.nodes {
            self.receivers(sink, traced, from, room);
        }
    }

    /// Prints all frames that arrive in a slot, with this much room for the longest of them. It
    /// stays a function of its own, since the room for long frames is large on the stack, and short
    /// frames don't need it.
    #[inline(never)]
    fn slot_within<K: Sink, const N: usize, const BYTES: usize>(
        &mut self,
        sink: &mut K,
        traced: &TracedSlot<'_, N>,
    )
    where
        Nodes: Capacity<N>,
        requires few { BYTES ≤ 270317 }
        requires room { (from : ℕ) → from < traced.now.shown.now.nodes
            → 3 * length (frame_at traced.now.shown.now traced.now.slot from) + 5 ≤ BYTES }
        ensures { Prints K.written K.faults self.old sink.old self.new sink.new
            (slot_text traced.now.plan.now traced.now.shown.now traced.now.slot) }
    {
        let mut room = [0; BYTES];
        self.senders(sink, traced, &mut room);
    }

    /// Prints all frames that arrive in a slot.
    fn slot<K: Sink, const N: usize>(&mut self, sink: &mut K, traced: &TracedSlot<'_, N>)
    where
        Nodes: Capacity<N>,
        ensures { Prints K.written K.faults self.old sink.old self.new sink.new
            (slot_text traced.now.plan.now traced.now.shown.now traced.now.slot) }
    {
        if longest(traced) <= SHORT_FRAME {
            self.slot_within::<K, N, SHORT_ROOM>(sink, traced);
        } else {
            self.slot_within::<K, N, LONG_ROOM>(sink, traced);
        }
    }

    /// Prints all frames that arrive in a period.
    pub(crate) fn frames<K: Sink, const N: usize>(
        &mut self,
        sink: &mut K,
        shown: &PeriodRecord<N>,
        plan: &FaultPlan<N>,
    )
    where
        Nodes: Capacity<N>,
        requires planned { IsPlanOf plan.now shown.now }
        ensures { Prints K.written K.faults self.old sink.old self.new sink.new
            (frames_text plan.now shown.now) }
    {
        // naming a field tells the checker the types of all of them
        let _ = &shown.classes;
        for slot in 0..slots_of(plan, shown.m) {
            self.slot(sink, &TracedSlot { shown, plan, slot });
        }
    }
}
