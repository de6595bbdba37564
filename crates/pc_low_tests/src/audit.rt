//! The certificate of one activity that cannot be shortened: right, wrong and cut short, off a source and in pieces.
ghost use Rattle.std.specs.Prelude.{◌≤◌, length};

use pc_check::{Audit, Fail as FailingPoint, Verdict, audit_source};
use pc_crash::{CrashNet, Term};
use pc_edges::MemSource;
use pc_model::Arc;
use pc_net::Net;
use pc_text::Code;
use std::alloc::{AllocError, Global};

const RIGHT: &[u8] = b"CERT 1 A 2 1\nNORMAL\nSTEP A\nCRASH\nSTEP A\nSEGMENT 3 3 7 0\n\
EVENT A 0 0\nEVENT B 3 0\nACT A 3 0 0\nCLOSE\nEND\n";

// Its cost is not that of the durations.
const WRONG: &[u8] = b"CERT 1 A 2 1\nNORMAL\nSTEP A\nCRASH\nSTEP A\nSEGMENT 3 3 8 0\n\
EVENT A 0 0\nEVENT B 3 0\nACT A 3 0 0\nCLOSE\nEND\n";

// Its last line is missing.
const CUT: &[u8] = b"CERT 1 A 2 1\nNORMAL\nSTEP A\nCRASH\nSTEP A\nSEGMENT 3 3 7 0\n\
EVENT A 0 0\nEVENT B 3 0\nACT A 3 0 0\nCLOSE\n";

// What the text is found to be off a source that gives at most seven bytes a pull.
fn found(alloc: Global, net: &CrashNet<'_>, text: &[u8]) -> Option<Verdict> {
    let mut source = MemSource::new(alloc, text, 7, &[]).ok()?;
    audit_source(alloc, net, &mut source).ok()
}

// The verdict of a failing point.
fn failing(at: FailingPoint) -> Verdict {
    Verdict::No {
        line: at.line,
        reason: at.reason,
    }
}

// What the text is found to be in two pieces.
fn in_pieces(
    alloc: Global,
    net: &CrashNet<'_>,
    text: &[u8],
    cut: usize,
) -> Result<Verdict, AllocError>
    requires { cut ≤ length text.now }
{
    let mut audit = Audit::build(alloc, net)?;
    if let Some(at) = audit.feed(&text[..cut]) {
        return Ok(failing(at));
    }
    if let Some(at) = audit.feed(&text[cut..]) {
        return Ok(failing(at));
    }
    Ok(audit.finish())
}

const VERDICTS: &[(&[u8], Verdict)] = &[
    (RIGHT, Verdict::Yes { segments: 1 }),
    (
        WRONG,
        Verdict::No {
            line: 10,
            reason: 12,
        },
    ),
    (
        CUT,
        Verdict::No {
            line: 11,
            reason: 0,
        },
    ),
];

// The first of these texts that gets another verdict, or none.
fn first_wrong(alloc: Global, net: &CrashNet<'_>) -> Option<usize> {
    for (i, &(text, verdict)) in VERDICTS.iter().enumerate() {
        let is_found = found(alloc, net, text) == Some(verdict);
        let is_found_in_pieces = in_pieces(alloc, net, text, text.len() / 2) == Ok(verdict);
        if !(is_found & is_found_in_pieces) {
            return Some(i);
        }
    }
    None
}

const TERMS: &[Term] = &[Term {
    normal: 3,
    crash: 3,
    cost: 7,
    slope: 2,
}];

fn is_audited(alloc: Global) -> Option<bool> {
    let (a, b) = (Code::read(b"A")?, Code::read(b"B")?);
    let net = Net::build(alloc, 2, 0, 1, &[Arc { from: 0, to: 1 }]).ok()?;
    let priced = CrashNet::build(alloc, &net, TERMS, &[], a, &[a, b], &[a]).ok()?;
    Some(first_wrong(alloc, &priced).is_none())
}

#[test]
fn a_certificate_is_audited(rt: HostRuntime) {
    assert!(rt; is_audited(rt.alloc()) == Some(true));
}
