ghost use Rattle.std.specs.Prelude.{◌≡◌, ℕ, ◌+◌, ◌<◌, ◌≤◌, IfSome, IfNone};
ghost use Rattle.slot_plan.specs.Slots.{slot_at, slot_number, round_of, slot_count, IsSlot};

/// What the nodes send in a slot.
#[derive(Clone, Copy)]
pub enum Slot {
    /// Their agreed states, by which a node that restarts comes back.
    Sync,
    /// Their own claims in round 0, and in round r, from 1 to m, what they heard of claims in the
    /// round before.
    Claims(u8),
    /// Their values of the due channels.
    Data,
    /// Their own rows in round 0, and in round r, from 1 to m, what they heard of rows in the round
    /// before.
    Rows(u8),
}

impl Slot {
    /// What slot number `number` is, where there are `m` relay rounds; None exactly where a period
    /// has no such slot.
    pub fn at(m: u8, number: u8) -> Option<Slot>
        ensures slot { result ≡ slot_at m number }
        ensures number { IfSome result (λ x. IsSlot m x × (slot_number m x ≡ number)) }
        ensures none { IfNone result (slot_count m ≤ number) }
    {
        if number == 0 {
            return Some(Slot::Sync);
        }
        let after_sync = number - 1;
        if after_sync <= m {
            return Some(Slot::Claims(after_sync));
        }
        let after_claims = after_sync - m - 1;
        if after_claims == 0 {
            return Some(Slot::Data);
        }
        let after_data = after_claims - 1;
        if after_data <= m {
            Some(Slot::Rows(after_data))
        } else {
            None
        }
    }

    /// The number of the slot, where there are `m` relay rounds.
    pub fn number(self, m: u8) -> u8
        requires rounds { m ≤ 3 }
        requires slot { IsSlot m self }
        ensures number { result ≡ slot_number m self }
        ensures within { result < slot_count m }
    {
        match self {
            Slot::Sync => 0,
            Slot::Claims(round) => 1 + round,
            Slot::Data => m + 2,
            Slot::Rows(round) => m + 3 + round,
        }
    }

    /// The relay round of the slot: 0 where the nodes send what is their own.
    pub fn round(self) -> u8
        ensures { result ≡ round_of self }
    {
        match self {
            Slot::Sync | Slot::Data => 0,
            Slot::Claims(round) | Slot::Rows(round) => round,
        }
    }
}
