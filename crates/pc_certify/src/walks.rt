//! The two walks of a certificate.
ghost use Rattle.std.specs.Prelude.{◌≡◌, IfOk};
ghost use Rattle.pc_certify.specs.inside.Walks.{ArePicked, durations_in};

use pc_check::length_in;
use pc_crash::CrashNet;
use pc_times::{Longest, longest};
use std::alloc::{AllocError, Global};

/// The critical paths of a network at normal and at crash durations.
pub(crate) struct Walks {
    pub(crate) normal: Longest,
    pub(crate) crash: Longest,
}

impl Drop for Walks {
    // Written by hand so that the proof of dropping it is done once, here.
    fn drop(self) {
        let Walks {
            normal: _normal,
            crash: _crash,
        } = self;
    }
}

impl Walks {
    /// Finds the two walks of a network. Linear in events and activities.
    ///
    /// # Errors
    ///
    /// `AllocError` if there is no memory for them.
    pub(crate) fn build(alloc: Global, net: &CrashNet<'_>) -> Result<Walks, AllocError>
        ensures { IfOk result (λ walks. ArePicked net.now walks.normal walks.crash) }
    {
        // For each activity has one term, with a normal and a crash duration that are small.
        net.facts();
        let normal = durations(alloc, net, false)?;
        let crash = durations(alloc, net, true)?;
        Ok(Walks {
            normal: longest(alloc, net.net(), &normal)?,
            crash: longest(alloc, net.net(), &crash)?,
        })
    }
}

/// Returns the durations of the activities in the crash walk, or in the normal walk.
fn durations(alloc: Global, net: &CrashNet<'_>, is_crash: bool) -> Result<Vec<u64>, AllocError>
    ensures { IfOk result (λ durations. durations.items ≡ durations_in is_crash net.now.terms) }
{
    net.facts();
    let activities = net.net().activities();
    let mut durations = Vec::with_capacity(alloc, activities as usize)?;
    for a in 0..activities {
        durations.push(length_in(net, a, is_crash))?;
    }
    Ok(durations)
}
