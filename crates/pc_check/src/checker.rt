//! The checker of a certificate, and what it returns.
ghost use Rattle.std.specs.Prelude.{◌≡◌, ◌^◌, ◌<◌, ◌∷◌, ◌++◌, [], List, IsSome, IfNone, IfOk, None, Some};
ghost use Rattle.pc_cert.specs.Grammar.{next};
ghost use Rattle.pc_cert.specs.declared.line.CertLine.{CertLine};
ghost use Rattle.pc_cert.specs.declared.place.Place.TheVariants.{Ended};
ghost use Rattle.pc_check.specs.inside.Bounds.{lines_left};
ghost use Rattle.pc_check.specs.Certified.{segments_of};
ghost use Rattle.pc_check.specs.inside.Certified.{FindsInLines, OnYes};
ghost use Rattle.pc_check.specs.Certified.{AreCurve};
ghost use Rattle.pc_check.specs.inside.Checking.{ChecksAs};
ghost use Rattle.pc_check.specs.inside.fast.Along.{TakesAlong};
ghost use Rattle.pc_check.specs.declared.checker.Fail.{Fail};

use crate::advancing::advance;
use crate::fast::{advance_acts, advance_events, fronts_of};
use crate::kept::{Kept, kept_of};
use pc_cert::{CertLine, CertReader, EventFront, KnownLine, Place};
use pc_crash::CrashNet;
use std::alloc::{AllocError, Global};
use std::marker::Model;

/// A checker of a network's certificate. It takes the lines one by one.
pub struct Checker<'n> {
    net: &'n CrashNet<'n>,
    kept: Kept,
    fail: Option<Fail>,
    /// how the lines of each event begin
    fronts: Vec<EventFront>,
}

impl<'n> Drop for Checker<'n> {
    // Written by hand so that the proof of dropping it is done once, here.
    fn drop(self) {
        let Checker {
            net: _net,
            kept: _kept,
            fail: _fail,
            fronts: _fronts,
        } = self;
    }
}

impl<'n> Model for Checker<'n> {
    ghost use Rattle.pc_check.specs.inside.Checking.{Checking};

    ghost Value = { Checking };

    ghost use Rattle.pc_check.specs.inside.Checkers.{checking, IsSoundChecker};

    ghost view = { checking };

    ghost invariant = { IsSoundChecker };
}

impl<'n> Checker<'n> {
    /// Returns a checker before the first line. It allocates all its memory here: for each event its time and flows,
    /// and for each activity the line that passed last.
    ///
    /// # Errors
    ///
    /// `AllocError` if out of memory.
    pub fn begin(alloc: Global, net: &'n CrashNet<'n>) -> Result<Checker<'n>, AllocError>
        ensures stands { IfOk result (λ checker. ChecksAs checker []) }
        ensures net { IfOk result (λ checker. checker.net ≡ net.now) }
        ensures no_fail { IfOk result (λ checker. checker.fail ≡ None) }
        ensures few { IfOk result (λ checker. checker.kept.lines < 2 ^ 63) }
    {
        Ok(Checker {
            net,
            kept: kept_of(alloc, net)?,
            fail: None,
            fronts: fronts_of(alloc, net)?,
        })
    }

    /// Takes one more line and returns the first condition that fails at this line or an earlier one.
    ///
    /// After a failure nothing changes. It takes constant time, except at the end of a segment, where it is linear in
    /// events.
    pub fn take(&mut self, line: CertLine) -> Option<Fail>
        requires { IfNone self.old.fail (IsSome (next self.old.kept.place line)) }
        ensures stands { (lines : List CertLine) → ChecksAs self.old lines → ChecksAs self.new (lines ++ line ∷ []) }
        ensures fail { result ≡ self.new.fail }
        ensures again { (fail : Fail) → self.old.fail ≡ Some fail → self.new ≡ self.old }
        ensures net { self.new.net ≡ self.old.net }
        ensures few { IfNone result (self.new.kept.lines < 2 ^ 63) }
        ensures left { IfNone result (lines_left self.new.net self.new.kept < lines_left self.old.net self.old.kept) }
    {
        match self.kept.place.next(&line) {
            Some(behind) => self.take_known(&KnownLine::of(line), &line, behind),
            // Only after a failure may a line come that is not allowed.
            None => self.fail,
        }
    }

    /// Takes one more line as `take` does, for a caller that knows the line with its bytes and the place of the next
    /// line. It keeps the bytes of an activity's line.
    pub(crate) fn take_known(
        &mut self,
        known: &KnownLine,
        line: &CertLine,
        behind: Place,
    ) -> Option<Fail>
        requires known { known.now.line ≡ Some line.now }
        requires goes { IfNone self.old.fail (next self.old.kept.place line.now ≡ Some behind) }
        ensures stands { (lines : List CertLine) → ChecksAs self.old lines →
            ChecksAs self.new (lines ++ line.now ∷ []) }
        ensures fail { result ≡ self.new.fail }
        ensures again { (fail : Fail) → self.old.fail ≡ Some fail → self.new ≡ self.old }
        ensures net { self.new.net ≡ self.old.net }
        ensures few { IfNone result (self.new.kept.lines < 2 ^ 63) }
        ensures left { IfNone result (lines_left self.new.net self.new.kept < lines_left self.old.net self.old.kept) }
    {
        if let Some(fail) = self.fail {
            return Some(fail);
        }
        match advance(self.net, &mut self.kept, known, line, behind) {
            None => None,
            Some(condition) => {
                let fail = Fail {
                    line: self.kept.lines + 1,
                    reason: condition.number(),
                };
                self.fail = Some(fail);
                Some(fail)
            }
        }
    }

    /// Reads lines at the front of the piece and takes them, as long as each is a line of the next event or the line of
    /// the next activity that passed last, and cannot fail. Returns how many bytes they have, with their line ends. If
    /// there is none, nothing changes, and it returns 0.
    #[inline(always)]
    pub(crate) fn take_rows(&mut self, reader: &mut CertReader, piece: &[u8]) -> usize
        requires no_fail { self.old.fail ≡ None }
        requires place { reader.old.place ≡ self.old.kept.place }
        requires going { reader.old.malformed ≡ None }
        requires alike { reader.old.lines ≡ self.old.kept.lines }
        requires few { self.old.kept.lines < 2 ^ 63 }
        ensures same { result ≡ 0 → self.new ≡ self.old }
        ensures same_reader { result ≡ 0 → reader.new ≡ reader.old }
        ensures takes { 0 < result → TakesAlong piece.now result reader.old reader.new self.old self.new }
    {
        let used = advance_acts(self.net, &mut self.kept, &self.fronts, reader, piece);
        if 0 < used {
            return used;
        }
        advance_events(self.net, &mut self.kept, &self.fronts, reader, piece)
    }

    /// Returns the verdict: the lines are certified and have this many segments, or a condition fails first.
    ///
    /// Certified lines prove the complete time-cost curve of the network, whoever wrote them.
    pub fn finish(self) -> Verdict
        requires { IfNone self.fail (self.kept.place ≡ Ended) }
        ensures finds { (lines : List CertLine) → ChecksAs self.entry lines → FindsInLines self.entry.net lines result }
        ensures curve { (lines : List CertLine) → ChecksAs self.entry lines →
            OnYes result (AreCurve self.entry.net (segments_of self.entry.net lines)) }
    {
        // What is known of the network says that lines that do not fail show its curve.
        self.net.facts();
        match self.fail {
            Some(fail) => Verdict::No {
                line: fail.line,
                reason: fail.reason,
            },
            None => Verdict::Yes {
                segments: self.kept.segments,
            },
        }
    }
}

/// The first condition that fails: the line where it is reported, counted from 1, and its number, from 1 to 15.
///
/// The audit of a text also uses the number 0, for a line that is malformed.
#[derive(Clone, Copy)]
pub struct Fail {
    pub line: u64,
    pub reason: u8,
}

/// The result of a check: the lines are certified and have this many segments, or a condition fails first at this line.
#[derive(Clone, Copy, Debug, PartialEq, Eq)]
pub enum Verdict {
    Yes { segments: u64 },
    No { line: u64, reason: u8 },
}
