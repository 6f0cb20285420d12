//! The connections to upstream brokers, with what the dialer handed out and took back.

ghost use Rattle.std.specs.Prelude.{◌≡◌, ◌+◌, ◌-◌, ◌^◌, min, IfOk, IsNone, IsSome};
ghost use Rattle.voe_outside.specs.Causes.{Rose};
ghost use Rattle.broker_run.specs.Course.{HasTaken};

use crate::link::{Fresh, SpentLine, either};
use std::alloc::Global;
use std::snapshot::Snapshot;
use voe_outside::{Dialed, Dialer};
use voe_values::NoMemory;

/// When an upstream address is to be dialed again.
#[derive(Clone, Copy, Debug, PartialEq, Eq)]
pub(crate) enum Due {
    /// Its connection stands.
    Up,
    /// Its connection has ended.
    Ended,
    /// At this moment.
    At(u64),
}

/// How many connections were dialed in this run, and how many of their links were taken back.
#[derive(Drop)]
pub(crate) struct Lines<N: Dialer> {
    pub(crate) first: Snapshot<N>,
    pub(crate) dialed: u64,
    pub(crate) back: u64,
    /// There was no memory for some connection.
    pub(crate) lacked: bool,
    /// Of the addresses that are dialed again, when.
    dues: Vec<Due>,
}

impl<N: Dialer> Lines<N> {
    /// None is dialed yet, and so many are due.
    pub(crate) fn new(alloc: Global, dialer: &N, count: usize) -> Result<Self, NoMemory>
        ensures first { IfOk result (λ lines. lines.first.value ≡ dialer.now) }
        ensures none { IfOk result (λ lines. lines.dialed ≡ 0) }
        ensures kept { IfOk result (λ lines. HasTaken N.returns N.fault_count N.L.Link lines.first.value dialer.now lines.back lines.lacked) }
    {
        Ok(Lines {
            first: Snapshot::of(dialer),
            dialed: 0,
            back: 0,
            lacked: false,
            dues: all_due(alloc, count)?,
        })
    }

    /// Whether this address is to be dialed now. Behind a connection that has ended the pause comes first.
    pub(crate) fn is_due(&mut self, address: usize, now: u64, pause: u64) -> bool
        ensures first { self.new.first.value ≡ self.old.first.value }
        ensures dialed { self.new.dialed ≡ self.old.dialed }
        ensures back { self.new.back ≡ self.old.back }
        ensures lacked { self.new.lacked ≡ self.old.lacked }
    {
        match self.dues.get(address).copied() {
            Some(Due::Ended) => {
                self.note(address, Due::At(now.saturating_add(pause)));
                false
            }
            Some(Due::At(moment)) => moment <= now,
            _ => false,
        }
    }

    /// Notes when this address is to be dialed, where it is dialed again.
    pub(crate) fn note(&mut self, address: usize, due: Due)
        ensures first { self.new.first.value ≡ self.old.first.value }
        ensures dialed { self.new.dialed ≡ self.old.dialed }
        ensures back { self.new.back ≡ self.old.back }
        ensures lacked { self.new.lacked ≡ self.old.lacked }
    {
        if let Some(place) = self.dues.get_mut(address) {
            *place = due;
        }
    }

    /// Dials this address.
    pub(crate) fn dial(&mut self, dialer: &mut N, address: &str) -> Option<Fresh<N::L>>
        requires { HasTaken N.returns N.fault_count N.L.Link self.old.first.value dialer.old self.old.back self.old.lacked }
        ensures first { self.new.first.value ≡ self.old.first.value }
        ensures dialed { IsSome result → self.new.dialed ≡ min (self.old.dialed + 1) (2 ^ 64 - 1) }
        ensures none { IsNone result → (self.new.dialed ≡ self.old.dialed) × Rose (N.fault_count self.old.first.value) (N.fault_count dialer.new) }
        ensures back { self.new.back ≡ self.old.back }
        ensures kept { HasTaken N.returns N.fault_count N.L.Link self.new.first.value dialer.new self.new.back self.new.lacked }
    {
        match dialer.dial(address) {
            Dialed::Link(link) => {
                self.dialed = self.dialed.saturating_add(1);
                Some(Fresh::of(link))
            }
            Dialed::Failed => None,
        }
    }

    /// Gives the link of a connection that has ended back to the dialer.
    pub(crate) fn take_back(&mut self, dialer: &mut N, spent: SpentLine<N::L>)
        requires { HasTaken N.returns N.fault_count N.L.Link self.old.first.value dialer.old self.old.back self.old.lacked }
        ensures first { self.new.first.value ≡ self.old.first.value }
        ensures dialed { self.new.dialed ≡ self.old.dialed }
        ensures kept { HasTaken N.returns N.fault_count N.L.Link self.new.first.value dialer.new self.new.back self.new.lacked }
    {
        let SpentLine {
            link,
            address,
            lacked,
        } = spent;
        self.note(address, Due::Ended);
        dialer.hang_up(link);
        self.back = self.back.saturating_add(1);
        self.lacked = either(self.lacked, lacked);
    }
}

fn all_due(alloc: Global, count: usize) -> Result<Vec<Due>, NoMemory> {
    let mut dues = Vec::new(alloc);
    for _ in 0..count {
        dues.push(Due::At(0))?;
    }
    Ok(dues)
}
