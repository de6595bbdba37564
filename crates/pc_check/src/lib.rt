//! The checker of certificates. It takes the lines of a certificate one by one and returns the first condition that
//! fails. The audit reads a certificate's text in pieces and checks it as it comes. Nothing here depends on the crates
//! that write certificates.
#![tactic(auto)]

mod acts;
mod advancing;
mod audit;
mod checker;
mod closing;
mod condition;
mod cut;
mod fast;
mod gaps;
mod kept;
mod meaning;
mod reasons;
mod walk;

pub use audit::{Audit, AuditError, audit_source};
pub use checker::{Checker, Fail, Verdict};
pub use meaning::{certificates_print_the_curve, lines_are_few, one_verdict};
pub use pc_cert::{CertLine, Flows};
pub use walk::length_in;
