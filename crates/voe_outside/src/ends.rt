//! What hands out links, and takes them back.

ghost use Rattle.std.specs.Prelude.{◌≡◌, ℕ, nat_lt};
ghost use Rattle.std.specs.declared.option.Option.{Option};
ghost use Rattle.voe_outside.specs.Accepted.{IfAccepted, is_link, is_idle};
ghost use Rattle.voe_outside.specs.Accepted as accepted;
ghost use Rattle.voe_outside.specs.Causes.{count_after};
ghost use Rattle.voe_outside.specs.Dialed.{IfDialed};
ghost use Rattle.voe_outside.specs.Dialed as dialed;
ghost use Rattle.voe_outside.specs.Returns.{Returns, TakesBack};
ghost use Rattle.voe_outside.specs.Traffic.{IsUnused};

use crate::{Accepted, Dialed, Link};

/// Hands out a link to each peer that comes, and takes it back when it has ended.
pub trait Listener {
    /// What connects to a peer.
    type L: Link + Drop + Send + 'static;

    /// The link that was taken back last, and how many were, where the listener tells them.
    ghost returns: { Self → Option (Returns Self.L) };

    /// How often a call, or a link that was taken back, has failed, up to the end of the counter.
    ghost fault_count: { Self → ℕ };

    /// How often nobody was waiting, up to the end of the counter.
    ghost idle_count: { Self → ℕ };

    /// How many links were handed out, up to the end of the counter.
    ghost accept_count: { Self → ℕ };

    /// Hands out a link to the next peer that comes. It may wait for one a while, and is idle where nobody came.
    fn accept(&mut self) -> Accepted<Self::L>
        ensures unused { IfAccepted result (λ l. IsUnused (Self.L.fault_count l) (Self.L.idle_count l) (Self.L.end_count l) (Self.L.traffic l)) }
        ensures returns { returns self.new ≡ returns self.old }
        ensures faults { fault_count self.new ≡ count_after (fault_count self.old) (accepted.is_failed result) }
        ensures idles { idle_count self.new ≡ count_after (idle_count self.old) (is_idle result) }
        ensures accepted { accept_count self.new ≡ count_after (accept_count self.old) (is_link result) };

    /// Takes back a link that it handed out. It counts as a fault exactly where the link had one.
    fn hang_up(&mut self, link: Self::L)
        ensures returns { TakesBack (returns self.old) (returns self.new) link }
        ensures faults { fault_count self.new ≡ count_after (fault_count self.old) (nat_lt 0 (Self.L.fault_count link)) }
        ensures idles { idle_count self.new ≡ idle_count self.old }
        ensures accepted { accept_count self.new ≡ accept_count self.old };

    /// How often a call, or a link that was taken back, has failed, up to 2^64 - 1.
    fn faults(&self) -> u64
        ensures { result ≡ fault_count self.now };

    /// How often nobody was waiting, up to 2^64 - 1.
    fn idles(&self) -> u64
        ensures { result ≡ idle_count self.now };

    /// How many links were handed out, up to 2^64 - 1.
    fn accepted(&self) -> u64
        ensures { result ≡ accept_count self.now };
}

/// Calls peers by their addresses, and takes each link back when it has ended.
pub trait Dialer {
    /// What connects to a peer.
    type L: Link + Drop + Send + 'static;

    /// The link that was taken back last, and how many were, where the dialer tells them.
    ghost returns: { Self → Option (Returns Self.L) };

    /// How often a call, or a link that was taken back, has failed, up to the end of the counter.
    ghost fault_count: { Self → ℕ };

    /// Calls the peer at this address, and hands out a link to it.
    fn dial(&mut self, address: &str) -> Dialed<Self::L>
        ensures unused { IfDialed result (λ l. IsUnused (Self.L.fault_count l) (Self.L.idle_count l) (Self.L.end_count l) (Self.L.traffic l)) }
        ensures returns { returns self.new ≡ returns self.old }
        ensures faults { fault_count self.new ≡ count_after (fault_count self.old) (dialed.is_failed result) };

    /// Takes back a link that it handed out. It counts as a fault exactly where the link had one.
    fn hang_up(&mut self, link: Self::L)
        ensures returns { TakesBack (returns self.old) (returns self.new) link }
        ensures faults { fault_count self.new ≡ count_after (fault_count self.old) (nat_lt 0 (Self.L.fault_count link)) };

    /// How often a call, or a link that was taken back, has failed, up to 2^64 - 1.
    fn faults(&self) -> u64
        ensures { result ≡ fault_count self.now };
}
