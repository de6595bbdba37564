//! A segment of the time-cost curve as its parts, wherever they are stored.
ghost use Rattle.std.specs.Prelude.{◌≡◌, ◌<◌, ◌≤◌, length};
ghost use Rattle.pc_laws.specs.Segment.{Segment};
ghost use Rattle.pc_crash.specs.Priced.{PricedNetwork, knees_in};

/// One segment of the time-cost curve of a network, if there is one yet. Without a segment no getter may be called.
///
/// Events and activities are numbered from 0 in card order.
pub trait SegmentView {
    // Whether there is a segment, its network, and its value.
    ghost IsPresent: { Self → Type 0 };

    ghost net: { Self → PricedNetwork };

    ghost segment: { Self → Segment };

    /// Returns the length at the upper end, in units.
    fn upper(&self) -> u64
        requires { IsPresent self.now }
        ensures { result ≡ (segment self.now).upper };

    /// Returns the length at the lower end, in units.
    fn lower(&self) -> u64
        requires { IsPresent self.now }
        ensures { result ≡ (segment self.now).lower };

    /// Returns the cost at the upper end.
    fn cost(&self) -> u64
        requires { IsPresent self.now }
        ensures { result ≡ (segment self.now).cost };

    /// Returns the cost of each unit that the length is shorter.
    fn slope(&self) -> u64
        requires { IsPresent self.now }
        ensures { result ≡ (segment self.now).slope };

    /// Returns the time of an event at the upper end, in units.
    fn time(&self, e: u32) -> u64
        requires present { IsPresent self.now }
        requires event { e < (net self.now).network.events }
        ensures { result ≡ (segment self.now).time e };

    /// Returns whether the event moves: whether it is earlier by as much as the length is shorter.
    fn moves(&self, e: u32) -> bool
        requires present { IsPresent self.now }
        requires event { e < (net self.now).network.events }
        ensures { result ≡ (segment self.now).moves e };

    /// Returns the duration of an activity at the upper end, in units.
    fn duration(&self, a: u32) -> u64
        requires present { IsPresent self.now }
        requires activity { a < length (net self.now).network.arcs }
        ensures { result ≡ (segment self.now).duration a };

    /// Returns the flow along an activity at knee `k`, or beyond all knees if `k` is their number.
    fn flow(&self, a: u32, k: u32) -> u64
        requires present { IsPresent self.now }
        requires activity { a < length (net self.now).network.arcs }
        requires knee { k ≤ (knees_in (net self.now)).count a }
        ensures at_knee { k < (knees_in (net self.now)).count a → result ≡ (segment self.now).flow a k }
        ensures beside { k ≡ (knees_in (net self.now)).count a → result ≡ (segment self.now).beside a };
}
