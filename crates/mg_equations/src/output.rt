ghost use Rattle.std.specs.Prelude.{◌≡◌, ◌≤◌, ◌++◌, nat_lt, length, option_map, None, IfOk, OnOk};
ghost use Rattle.mg_settled.specs.Prefix.{empty_prefix, appended, all_appended, raised, closed};
ghost use Rattle.mg_settled.specs.Extension.{IsExtendedBy};
ghost use Rattle.mg_settled.specs.Loopback.{behind_first, last_of};
ghost use Rattle.mg_equations.specs.Code.Changes.{is_changed};

use mg_calc::LaidPackets;
use mg_settled::{Prefix, Rest};
use mg_time::Timestamp;
use mg_value::{BlockList, Packet};
use std::alloc::{AllocError, Global};
use std::marker::Model;

/// A stream that grows, such as an output to which a node appends packets. Contracts see its prefix.
#[derive(Debug, Drop)]
pub struct Output {
    packets: Vec<Packet>,
    bound: Timestamp,
}

impl Model for Output {
    ghost use Rattle.mg_value.specs.Payload.{Plain};
    ghost use Rattle.mg_settled.specs.Prefix.{StreamPrefix};
    ghost use Rattle.mg_settled.specs.Codes.{plain_prefix_code};

    ghost Value = { StreamPrefix Plain };

    ghost coded = { plain_prefix_code };

    ghost view = { λ o. record { packets = o.packets.items; bound = o.bound } };
}

impl Output {
    /// Returns a stream about which nothing is known yet. Allocates nothing.
    pub fn new(alloc: Global) -> Output
        ensures { result ≡ empty_prefix }
    {
        Output {
            packets: Vec::new(alloc),
            bound: Timestamp::PRE_STREAM,
        }
    }

    /// Returns the stream's bound: the lowest timestamp that a further packet may have.
    pub fn bound(&self) -> Timestamp
        ensures { result ≡ self.now.bound }
    {
        self.bound
    }

    /// Whether the stream has packets.
    pub fn has_packets(&self) -> bool
        ensures { result ≡ nat_lt 0 (length self.now.packets) }
    {
        !self.packets.is_empty()
    }

    /// Returns how many packets the stream has.
    pub fn len(&self) -> usize
        ensures { result ≡ length self.now.packets }
    {
        self.packets.len()
    }

    /// Returns what is left of the stream once its first `read` packets have been read.
    pub fn rest(&self, read: usize) -> Rest<'_>
        requires { read ≤ length self.now.packets }
        ensures { result ≡ behind_first read self.now }
    {
        Rest::behind(self.packets.as_slice(), self.bound, read)
    }

    /// Returns the time of the last of the first `read` packets, or none if `read` is 0.
    pub fn last_time(&self, read: usize) -> Option<Timestamp>
        requires { read ≤ length self.now.packets }
        ensures { result ≡ option_map (λ p. p.at) (last_of None read self.now.packets) }
    {
        if read == 0 {
            return None;
        }
        let packet = &self.packets[read - 1];
        Some(packet.at)
    }

    /// Appends copies of packets, and sets the bound.
    pub fn extend(&mut self, further: &[Packet], bound: Timestamp) -> Result<(), AllocError>
        ensures packets { OnOk result (self.new.packets ≡ self.old.packets ++ further.now) }
        ensures bound { OnOk result (self.new.bound ≡ bound) }
    {
        for packet in further {
            self.packets.push(packet.try_clone()?)?;
        }
        self.bound = bound;
        Ok(())
    }

    /// Makes the stream one that extends it, by copying only what is new. Returns whether anything is.
    pub fn grow(&mut self, later: &Rest<'_>) -> Result<bool, AllocError>
        requires { IsExtendedBy self.old later.now }
        ensures stream { OnOk result (self.new ≡ later.now) }
        ensures change { IfOk result (λ change. change ≡ is_changed self.old later.now) }
    {
        let (_, further) = later.packets().split_at(self.packets.len());
        let same = further.is_empty() && self.bound == later.bound();
        self.extend(further, later.bound())?;
        Ok(!same)
    }

    /// Appends a packet, and raises the bound past it.
    pub fn append(&mut self, packet: Packet) -> Result<(), AllocError>
        ensures { OnOk result (self.new ≡ appended self.old packet) }
    {
        let next = packet.at.next_allowed();
        self.packets.push(packet)?;
        self.bound = next;
        Ok(())
    }

    /// Appends copies of packets, one after the other, and raises the bound past the last.
    pub fn append_all(&mut self, packets: &LaidPackets) -> Result<(), AllocError>
        ensures { OnOk result (self.new ≡ all_appended self.old packets.now) }
    {
        for packet in packets.as_slice() {
            self.append(packet.try_clone()?)?;
        }
        Ok(())
    }

    /// Raises the stream to a bound, if its own is lower.
    pub fn raise(&mut self, bound: Timestamp)
        ensures { self.new ≡ raised self.old bound }
    {
        if self.bound < bound {
            self.bound = bound;
        }
    }

    /// Closes the stream: its bound is Done.
    pub fn close(&mut self)
        ensures { self.new ≡ closed self.old }
    {
        self.bound = Timestamp::DONE;
    }

    /// Returns the stream as a prefix.
    pub fn into_prefix(self) -> Result<Prefix, AllocError>
        ensures { IfOk result (λ prefix. prefix ≡ self) }
    {
        let Output { packets, bound } = self;
        Ok(Prefix {
            packets: BlockList::from_vec(packets)?,
            bound,
        })
    }
}
