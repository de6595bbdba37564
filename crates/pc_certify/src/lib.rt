//! The certificate of a network, from the solver to a sink, and why it is certified. Each segment is put on a page when
//! it is complete, so that the memory that it takes does not depend on how many segments there are.
#![tactic(auto)]

mod certificate;
mod certifying;
mod fast;
mod laws;
mod segment;
mod walks;

pub use certificate::Certificate;
pub use certifying::{CertifyError, certify};
pub use fast::LastLines;
pub use laws::{
    certified_is_found, small_decks_are_written, written_fits, written_is_certified,
    written_is_one_text,
};
pub use segment::{FilledView, put_segment_by};
