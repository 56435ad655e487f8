ghost use Rattle.std.specs.Prelude.{◌≡◌, ◌<◌, ◌≤◌, ◌^◌, length, drop, All, nat_lt, is_some, if◌then◌else◌, slice_get, option_copied, IfOk};
ghost use Rattle.std.specs.List.{prefix_len};
ghost use Rattle.mg_time.specs.Time.{done};
ghost use Rattle.mg_settled.specs.Prefix.{IsPrefix, first_time};
ghost use Rattle.mg_settled.specs.Settled.{packet_at, port_of, inputs_of};
ghost use Rattle.mg_settled.specs.FirstSet.{front_at, from, behind};

use crate::{Prefix, PrefixList};
use mg_time::Timestamp;
use mg_value::{NumberList, Packet};
use std::alloc::{AllocError, Global};
use std::marker::Model;

/// What is left of a prefix that is read from its first packet on. Contracts see it as a prefix.
#[derive(Drop)]
pub struct Rest<'a> {
    packets: &'a [Packet],
    bound: Timestamp,
}

impl<'a> Model for Rest<'a> {
    ghost use Rattle.mg_value.specs.Payload.{Plain};
    ghost use Rattle.mg_settled.specs.Prefix.{StreamPrefix};
    ghost use Rattle.mg_settled.specs.Codes.{plain_prefix_code};

    ghost Value = { StreamPrefix Plain };

    ghost coded = { plain_prefix_code };

    ghost view = { λ r. record { packets = r.packets.now; bound = r.bound } };
}

impl<'a> Rest<'a> {
    /// Makes what is left of packets up to a bound once the first `read` of them have been read.
    pub fn behind(packets: &'a [Packet], bound: Timestamp, read: usize) -> Rest<'a>
        requires { read ≤ length packets.now }
        ensures packets { result.packets ≡ drop read packets.now }
        ensures bound { result.bound ≡ bound }
    {
        let (_, left) = packets.split_at(read);
        Rest {
            packets: left,
            bound,
        }
    }

    /// Makes what is left of a prefix before anything of it has been read: all of it.
    pub fn of(prefix: &'a Prefix) -> Rest<'a>
        ensures { result ≡ prefix.now }
    {
        Rest {
            packets: prefix.packets.as_slice(),
            bound: prefix.bound,
        }
    }

    /// How many packets are left.
    pub fn len(&self) -> usize
        ensures { result ≡ length self.now.packets }
    {
        self.packets.len()
    }

    /// Returns the packets that are left.
    pub fn packets(&self) -> &'a [Packet]
        ensures { result.now ≡ self.now.packets }
    {
        self.packets
    }

    /// Returns the first packet that is left, if there is one.
    pub(crate) fn first(&self) -> Option<&'a Packet>
        ensures { option_copied result ≡ slice_get self.now.packets 0 }
    {
        self.packets.first()
    }

    /// Returns the bound of the prefix.
    pub fn bound(&self) -> Timestamp
        ensures { result ≡ self.now.bound }
    {
        self.bound
    }

    /// Returns the time of the first packet that is left, and `DONE` if no packet is left.
    pub(crate) fn first_time(&self) -> Timestamp
        ensures { result ≡ first_time self.now.packets done }
    {
        match self.packets.first() {
            Some(first) => first.at,
            None => Timestamp::DONE,
        }
    }

    /// Returns the time up to which all has been read: that of the first packet that is left, or the bound.
    pub fn read_up_to(&self) -> Timestamp
        ensures { result ≡ first_time self.now.packets self.now.bound }
    {
        match self.packets.first() {
            Some(first) => first.at,
            None => self.bound,
        }
    }

    /// Passes the first packet that is left, if there is one.
    pub(crate) fn read_first(&mut self)
        ensures packets { self.new.packets ≡ drop 1 self.old.packets }
        ensures bound { self.new.bound ≡ self.old.bound }
    {
        if let Some((_, left)) = self.packets.split_first() {
            self.packets = left;
        }
    }

    /// Passes all packets up to a time, and returns the one that stands at it, if there is one.
    pub(crate) fn read_at(&mut self, at: Timestamp) -> Option<&'a Packet>
        requires { IsPrefix self.old }
        ensures found { option_copied result ≡ packet_at at self.old.packets }
        ensures left { self.new ≡ behind at self.old }
    {
        self.pass(at);
        self.take_at(at)
    }

    /// Passes the packets that stand before a time.
    fn pass(&mut self, at: Timestamp)
        ensures { self.new ≡ from at self.old }
    {
        let (_, left) = self.packets.split_at(count_before(self.packets, at));
        self.packets = left;
    }

    /// Passes the first packet and returns it, if it stands at a time.
    fn take_at(&mut self, at: Timestamp) -> Option<&'a Packet>
        ensures found { option_copied result ≡ front_at at self.old.packets }
        ensures packets { self.new.packets
            ≡ (if is_some (front_at at self.old.packets) then drop 1 self.old.packets else self.old.packets) }
        ensures bound { self.new.bound ≡ self.old.bound }
    {
        match self.packets.split_first() {
            Some((first, left)) if first.at == at => {
                self.packets = left;
                Some(first)
            }
            _ => None,
        }
    }
}

/// How many first packets stand before a time.
pub(crate) fn count_before(packets: &[Packet], at: Timestamp) -> usize
    ensures count { result ≡ prefix_len (λ p. nat_lt p.at at) packets.now }
    ensures within { result ≤ length packets.now }
{
    for (i, packet) in packets.iter().enumerate() {
        if at <= packet.at {
            return i;
        }
    }
    packets.len()
}

/// Returns the prefix at a port of a node whose ports have the streams with these numbers.
pub(crate) fn prefix_at<'a>(prefixes: &'a PrefixList, ports: &NumberList, port: usize) -> &'a Prefix
    requires known { All (λ i. i < length prefixes.now) ports.now }
    requires there { port < length ports.now }
    ensures { result.now ≡ port_of (inputs_of prefixes.now ports.now) port }
{
    &prefixes.as_slice()[ports.as_slice()[port] as usize]
}

/// Returns the prefixes at all ports of a node whose ports have the streams with these numbers, to be read.
pub fn rests_of<'a>(
    alloc: Global,
    prefixes: &'a PrefixList,
    ports: &NumberList,
) -> Result<Vec<Rest<'a>>, AllocError>
    requires { All (λ i. i < length prefixes.now) ports.now }
    ensures rests { IfOk result (λ rests. rests.items ≡ inputs_of prefixes.now ports.now) }
    ensures few { IfOk result (λ rests. length rests.items < 2 ^ 32) }
{
    let count = ports.len() as usize;
    let mut rests = Vec::with_capacity(alloc, count)?;
    for port in 0..count {
        rests.push(Rest::of(prefix_at(prefixes, ports, port)))?;
    }
    Ok(rests)
}
