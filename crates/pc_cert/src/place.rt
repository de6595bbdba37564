//! The order of the lines of a certificate.
ghost use Rattle.std.specs.Prelude.{
  ◌≡◌,
  ℕ,
  ◌<◌,
  ◌==◌,
  ◌||◌,
  length,
  IsTrue,
  List,
  Option,
  None,
  Some,
  IfNone,
  IfSome,
  Bool,
  false,
};
ghost use Rattle.pc_cert.specs.declared.line.CertLine.{CertLine};
ghost use Rattle.pc_cert.specs.declared.line.CertLine.TheVariants.{Event, Act};
ghost use Rattle.pc_cert.specs.declared.place.Place.TheVariants.{
  Start,
  AfterHead,
  NormalWalk,
  CrashWalk,
  InSegment,
  Between,
};
ghost use Rattle.pc_cert.specs.inside.Known.{HasText, IsAgain, IsFrontOf, IsLineTextOf};
ghost use Rattle.pc_cert.specs.Grammar.{next};

use crate::event::{EventFront, EventSaid};
use crate::fast::LineText;
use crate::flows::Flows;
use crate::line::CertLine;

/// What the first line says about the lines that follow: the version, and the numbers of events and of activities.
#[derive(Clone, Copy)]
pub struct Shape {
    pub version: u64,
    pub events: u64,
    pub activities: u64,
}

/// The place of the next line in a certificate.
#[derive(Clone, Copy)]
pub enum Place {
    /// at the beginning
    Start,
    /// after the first line
    AfterHead(Shape),
    /// among the steps of the normal walk; at most `steps` more may come
    NormalWalk {
        shape: Shape,
        steps: u64,
    },
    /// among the steps of the crash walk; at most `steps` more may come
    CrashWalk {
        shape: Shape,
        steps: u64,
    },
    /// in a segment; this many of its events and activities are still to come
    InSegment {
        shape: Shape,
        events: u64,
        activities: u64,
    },
    /// after a segment
    Between(Shape),
    /// after the last line
    Ended,
}

impl Place {
    /// Returns the place after `line`, or `None` if `line` is not allowed here.
    pub fn next(self, line: &CertLine) -> Option<Place>
        ensures { result ≡ next self line.now }
    {
        match self {
            Place::Start => next_at_start(line),
            Place::AfterHead(shape) => next_after_head(shape, line),
            Place::NormalWalk { shape, steps } => next_in_normal_walk(shape, steps, line),
            Place::CrashWalk { shape, steps } => next_in_crash_walk(shape, steps, line),
            Place::InSegment {
                shape,
                events,
                activities,
            } => next_in_segment(shape, events, activities, line),
            Place::Between(shape) => next_between(shape, line),
            Place::Ended => None,
        }
    }

    /// Moves to the place after `line` if it is allowed here, and returns whether it is.
    ///
    /// It does what `next` does, but among the rows of a segment it changes only the number of those still to come.
    #[inline(always)]
    pub(crate) fn go_behind(&mut self, line: &CertLine) -> bool
        ensures goes { IsTrue result → next self.old line.now ≡ Some self.new }
        ensures stays { result ≡ false → next self.old line.now ≡ None }
        ensures same { result ≡ false → self.new ≡ self.old }
    {
        let is_row = match line {
            CertLine::Event { .. } => self.go_behind_event(),
            CertLine::Act { flows, .. } => self.go_behind_act(flows),
            _ => false,
        };
        is_row || self.jump_behind(line)
    }

    /// Goes on after an activity's line with these flows if one is allowed here, and returns whether it is.
    #[inline(always)]
    pub(crate) fn go_behind_act(&mut self, flows: &Flows) -> bool
        ensures goes { (code : List ℕ) (duration : ℕ) → IsTrue result →
            next self.old (Act code duration flows.now) ≡ Some self.new }
        ensures same { result ≡ false → self.new ≡ self.old }
    {
        match self {
            Place::InSegment {
                shape,
                events,
                activities,
            } if *events == 0 && 0 < *activities && takes_flows(*shape, flows) => {
                *activities -= 1;
                true
            }
            _ => false,
        }
    }

    /// Goes on after an event's line if one is allowed here, and returns whether it is.
    #[inline(always)]
    pub(crate) fn go_behind_event(&mut self) -> bool
        ensures goes { (code : List ℕ) (time : ℕ) (moves : Bool) → IsTrue result →
            next self.old (Event code time moves) ≡ Some self.new }
        ensures same { result ≡ false → self.new ≡ self.old }
    {
        match self {
            Place::InSegment { events: left, .. } if 0 < *left => {
                *left -= 1;
                true
            }
            _ => false,
        }
    }

    /// Goes on after the line at the beginning of the piece, if it is the one of this text, an activity's with these
    /// flows, and is allowed here. Returns how many bytes it has with its end. Otherwise it changes nothing and returns
    /// 0.
    #[inline(always)]
    pub fn pass_act(&mut self, piece: &[u8], text: &LineText, flows: &Flows) -> usize
        requires text { (line : Option CertLine) × IsLineTextOf line text.now }
        ensures kept { 0 < result → HasText text.now }
        ensures same { result ≡ 0 → self.new ≡ self.old }
        ensures again { (line : Option CertLine) → 0 < result → IsLineTextOf line text.now →
            IsAgain line piece.now result }
        ensures goes { (code : List ℕ) (duration : ℕ) → 0 < result →
            next self.old (Act code duration flows.now) ≡ Some self.new }
    {
        let used = text.again(piece);
        if used == 0 {
            return 0;
        }
        if !self.go_behind_act(flows) {
            return 0;
        }
        used
    }

    /// Goes on after the line at the beginning of the piece, if it is one of this event and is allowed here, and
    /// returns what it says. Otherwise it changes nothing and returns `None`.
    #[inline(always)]
    pub fn pass_event(&mut self, piece: &[u8], front: &EventFront) -> Option<EventSaid>
        requires front { IsFrontOf front.now.code front.now }
        ensures same { IfNone result (self.new ≡ self.old) }
        ensures again { IfSome result (λ said. IsAgain
            (Some (Event front.now.code said.time said.moves)) piece.now said.used) }
        ensures goes { IfSome result (λ said. next self.old (Event front.now.code said.time said.moves)
            ≡ Some self.new) }
    {
        let said = front.said(piece)?;
        if !self.go_behind_event() {
            return None;
        }
        Some(said)
    }

    /// Does what `go_behind` does, by `next`.
    fn jump_behind(&mut self, line: &CertLine) -> bool
        ensures goes { IsTrue result → next self.old line.now ≡ Some self.new }
        ensures stays { result ≡ false → next self.old line.now ≡ None }
        ensures same { result ≡ false → self.new ≡ self.old }
    {
        match self.next(line) {
            None => false,
            Some(behind) => {
                *self = behind;
                true
            }
        }
    }
}

fn next_at_start(line: &CertLine) -> Option<Place>
    ensures { result ≡ next Start line.now }
{
    match line {
        CertLine::Head {
            version,
            project: _,
            events,
            activities,
        } => Some(Place::AfterHead(Shape {
            version: *version,
            events: *events,
            activities: *activities,
        })),
        _ => None,
    }
}

fn next_after_head(shape: Shape, line: &CertLine) -> Option<Place>
    ensures { result ≡ next (AfterHead shape) line.now }
{
    match line {
        CertLine::Normal => Some(Place::NormalWalk {
            shape,
            steps: shape.events,
        }),
        _ => None,
    }
}

fn next_in_normal_walk(shape: Shape, steps: u64, line: &CertLine) -> Option<Place>
    ensures { result ≡ next (NormalWalk shape steps) line.now }
{
    match line {
        CertLine::Step(_) if 0 < steps => Some(Place::NormalWalk {
            shape,
            steps: steps - 1,
        }),
        CertLine::Crash => Some(Place::CrashWalk {
            shape,
            steps: shape.events,
        }),
        _ => None,
    }
}

fn next_in_crash_walk(shape: Shape, steps: u64, line: &CertLine) -> Option<Place>
    ensures { result ≡ next (CrashWalk shape steps) line.now }
{
    match line {
        CertLine::Step(_) if 0 < steps => Some(Place::CrashWalk {
            shape,
            steps: steps - 1,
        }),
        CertLine::Segment { .. } => Some(opened(shape)),
        _ => None,
    }
}

fn next_between(shape: Shape, line: &CertLine) -> Option<Place>
    ensures { result ≡ next (Between shape) line.now }
{
    match line {
        CertLine::Segment { .. } => Some(opened(shape)),
        CertLine::End => Some(Place::Ended),
        _ => None,
    }
}

/// Returns the place at the beginning of a segment.
fn opened(shape: Shape) -> Place
    ensures { result ≡ InSegment shape shape.events shape.activities }
{
    Place::InSegment {
        shape,
        events: shape.events,
        activities: shape.activities,
    }
}

fn next_in_segment(shape: Shape, events: u64, activities: u64, line: &CertLine) -> Option<Place>
    ensures { result ≡ next (InSegment shape events activities) line.now }
{
    match line {
        CertLine::Event { .. } if 0 < events => Some(Place::InSegment {
            shape,
            events: events - 1,
            activities,
        }),
        CertLine::Act { flows, .. } if events == 0 && 0 < activities && takes_flows(shape, flows) =>
            {
                Some(Place::InSegment {
                    shape,
                    events,
                    activities: activities - 1,
                })
            }
        CertLine::Close if events == 0 && activities == 0 => Some(Place::Between(shape)),
        _ => None,
    }
}

/// Returns whether an activity can have this many flows: two in version 1, and two to six in version 2.
fn takes_flows(shape: Shape, flows: &Flows) -> bool
    ensures { result ≡ (shape.version == 2 || length flows.now == 2) }
{
    flows.as_slice().len() == 2 || shape.version == 2
}
