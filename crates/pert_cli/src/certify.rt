//! `certify`: the certificate of the time-cost curve.
ghost use Rattle.std.specs.Prelude.{◌≡◌, IfOk};
ghost use Rattle.pc_certify.specs.Certificate.{IsCertificate};
ghost use Rattle.pc_certify.specs.inside.Certificate.{IsReadyToCertify};
ghost use Rattle.pc_project.specs.shell.Priced.{priced_in};

use crate::solving::{priced_net, solver_region};
use pc_certify::Certificate;
use pc_crash::CrashNet;
use pc_edges::Sink;
use pc_edges::page::Page;
use pc_project::Project;
use pc_reports::Report;
use std::alloc::{AllocError, Global};

/// The report of a certificate of a project's curve, which a solver finds while it is printed. So the memory that it
/// takes does not depend on the number of segments.
#[derive(Drop)]
pub(crate) struct CertificateReport<'p> {
    net: CrashNet<'p>,
    certificate: Certificate,
}

impl<'p> CertificateReport<'p> {
    /// Prices the project's network, and takes the memory of the certificate.
    pub(crate) fn build(
        alloc: Global,
        project: &'p Project,
    ) -> Result<CertificateReport<'p>, AllocError>
        ensures net { IfOk result (λ report. report.net ≡ priced_in project.now) }
        ensures ready { IfOk result (λ report. IsReadyToCertify (priced_in project.now) report.certificate) }
    {
        let net = priced_net(alloc, project)?;
        let region = solver_region(alloc, project)?;
        let certificate = Certificate::build(alloc, &net, region)?;
        Ok(CertificateReport { net, certificate })
    }
}

impl<'p> Report for CertificateReport<'p> {
    ghost IsFor = { λ report project. (report.net ≡ priced_in project) × IsReadyToCertify (priced_in project)
        report.certificate };

    ghost IsText = { λ report project text. IsCertificate (priced_in project) text };

    fn put_on<O: Sink>(self, page: &mut Page, sink: &mut O, _project: &Project) {
        let CertificateReport { net, certificate } = self;
        certificate.put_on(page, sink, &net);
    }
}
