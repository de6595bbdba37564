//! A line of a certificate, and the laws of lines and of their texts.
ghost use Rattle.std.specs.Prelude.{◌≡◌, ◌<◌, List, length, IfSome, Some};
ghost use Rattle.pc_text.specs.Fields.{Lacks};
ghost use Rattle.pc_cert.specs.Lines.{spelling, IsWritable};
ghost use Rattle.pc_cert.specs.Text.{text_of, AreWritable};
ghost use Rattle.pc_cert.specs.inside.Reading.{line_of};
ghost use Rattle.pc_cert.specs.declared.line.CertLine.{CertLine};
ghost use Rattle.pc_cert.specs.declared.line.TheConstants.{MAX_LINE};

use crate::flows::Flows;
use crate::reading::line_of;
use pc_text::Code;

/// The limit on the bytes of a line without its end: every line has fewer.
pub const MAX_LINE: usize = 192;

/// A line of a certificate, without its end.
#[derive(Clone, Copy)]
pub enum CertLine {
    /// `CERT <version> <project> <events> <activities>`
    Head {
        version: u64,
        project: Code,
        events: u64,
        activities: u64,
    },
    /// `NORMAL`
    Normal,
    /// `STEP <activity>`
    Step(Code),
    /// `CRASH`
    Crash,
    /// `SEGMENT <upper> <lower> <cost> <slope>`
    Segment {
        upper: u64,
        lower: u64,
        cost: u64,
        slope: u64,
    },
    /// `EVENT <event> <time> <bit>`
    Event {
        code: Code,
        time: u64,
        moves: bool,
    },
    /// `ACT <activity> <duration> <flows>`
    Act {
        code: Code,
        duration: u64,
        flows: Flows,
    },
    /// `CLOSE`
    Close,
    /// `END`
    End,
}

impl CertLine {
    /// Reads a line from its bytes, without its end. Returns `None` if they are no line.
    pub fn read(bytes: &[u8]) -> Option<CertLine>
        ensures value { result ≡ line_of bytes.now }
        ensures spelled { IfSome result (λ line. (bytes.now ≡ spelling line) × IsWritable line) }
        ensures read { (line : CertLine) → IsWritable line → bytes.now ≡ spelling line → result ≡ Some line }
    {
        line_of(bytes)
    }
}

/// States that a line has one text, which is the text of no other line, contains no end of a line, and is short.
pub fn spelling_is_once()
    ensures once { (line other : CertLine) → IsWritable line → IsWritable other → spelling line ≡ spelling other
        → line ≡ other }
    ensures without_end { (line : CertLine) → IsWritable line → Lacks 10 (spelling line) }
    ensures short { (line : CertLine) → IsWritable line → length (spelling line) < MAX_LINE }
{}

/// States that no text is the text of two lists of lines.
pub fn text_is_once()
    ensures { (lines others : List CertLine) → AreWritable lines → AreWritable others → text_of lines ≡ text_of others →
        lines ≡ others }
{}
