//! Laws: what is written is certified, and its text is that of its lines; with certificates worked by hand, which show
//! that the definitions can be met and mean what they should. Each function does nothing: its contract is the law.
ghost use Rattle.std.specs.Prelude.{◌≡◌, ℕ, List, length, All, [], ◌∷◌, ◌++◌};
ghost use Rattle.pc_laws.specs.Segment.{Segment};
ghost use Rattle.pc_cert.specs.Text.{text_of, AreWritable};
ghost use Rattle.pc_crash.specs.Priced.{PricedNetwork};
ghost use Rattle.pc_check.specs.Certified.{segments_of, AreCertified, AreCurve};
ghost use Rattle.pc_check.specs.declared.checker.Verdict.{Verdict};
ghost use Rattle.pc_check.specs.declared.checker.Verdict.TheVariants.{Yes};
ghost use Rattle.pc_check.specs.Texts.{IsCertified, Finds};
ghost use Rattle.pc_cert.specs.Document.{document_lines, HasSmallNumbers, head_lines, segment_lines, end_lines};
ghost use Rattle.pc_certify.specs.Complete.{IsComplete, begun_lines};
ghost use Rattle.pc_certify.specs.Rows.{AllSaySame};
ghost use Rattle.pc_cert.specs.declared.line.CertLine.{CertLine};
ghost use Rattle.pc_laws.specs.Worked.{small_1, small_segments};
ghost use Rattle.pc_certify.specs.Worked.{
  small_deck,
  small_deck_in_pieces,
  along_a_and_b,
  upper_segment,
  lower_segment,
  small_certificate,
  begun_in_pieces,
};

use pc_crash::CrashNet;

/// States that a certificate of a network is certified if its segments join, from the sum of normal durations along the
/// normal walk, where all durations are normal, down to the sum of crash durations along the crash walk.
///
/// Its lines are in order, and none of them fails. Reading gives the same segments back. They are the complete curve:
/// for every length of the range they give a schedule at the cost that they say, and no schedule costs less. The
/// numbers of the segments have at most 18 digits.
pub fn written_is_certified(net: &CrashNet<'_>)
    ensures certified { (normal crash : List ℕ) (segments : List Segment) → IsComplete net.now normal crash segments →
        AreCertified net.now (document_lines net.now normal crash segments) }
    ensures text { (normal crash : List ℕ) (segments : List Segment) → IsComplete net.now normal crash segments →
        AreWritable (document_lines net.now normal crash segments) →
        IsCertified net.now (text_of (document_lines net.now normal crash segments)) (length segments) }
    ensures same { (normal crash : List ℕ) (segments : List Segment) → IsComplete net.now normal crash segments →
        AllSaySame net.now segments (segments_of net.now (document_lines net.now normal crash segments)) }
    ensures curve { (normal crash : List ℕ) (segments : List Segment) → IsComplete net.now normal crash segments →
        AreCurve net.now (segments_of net.now (document_lines net.now normal crash segments)) }
    ensures small { (normal crash : List ℕ) (segments : List Segment) → IsComplete net.now normal crash segments →
        All (HasSmallNumbers net.now) segments }
{
    // No more events than a project may have, in an order: so no number of a segment is too large.
    net.facts();
    net.net().facts();
}

/// States that an audit of a certified text finds that it is certified, with as many segments.
pub fn certified_is_found()
    ensures { (net : PricedNetwork) (text : List ℕ) (segments : ℕ) (verdict : Verdict) → IsCertified net text segments →
        Finds net text verdict → verdict ≡ Yes segments }
{}

/// States that the texts of the head, of the segments and of the end, one after the other, are the text of the
/// certificate.
pub fn written_is_one_text()
    ensures begins { (net : PricedNetwork) (normal crash : List ℕ) →
        text_of (begun_lines net normal crash []) ≡ text_of (head_lines net normal crash) }
    ensures goes_on { (net : PricedNetwork) (normal crash : List ℕ) (segments : List Segment) (segment : Segment) →
        text_of (begun_lines net normal crash segments) ++ text_of (segment_lines net segment)
        ≡ text_of (begun_lines net normal crash (segments ++ segment ∷ [])) }
    ensures ends { (net : PricedNetwork) (normal crash : List ℕ) (segments : List Segment) →
        text_of (begun_lines net normal crash segments) ++ text_of end_lines
        ≡ text_of (document_lines net normal crash segments) }
{}

/// States that if the lines of the head and of each segment can be written, all lines can, and no other lines have
/// their text: reading gives the same lines back.
pub fn written_fits()
    ensures fit { (net : PricedNetwork) (normal crash : List ℕ) (segments : List Segment) →
        AreWritable (head_lines net normal crash) → All (λ segment. AreWritable (segment_lines net segment)) segments →
        AreWritable (document_lines net normal crash segments) }
    ensures once { (net : PricedNetwork) (normal crash : List ℕ) (segments : List Segment) (lines : List CertLine) →
        AreWritable (document_lines net normal crash segments) → AreWritable lines →
        text_of lines ≡ text_of (document_lines net normal crash segments) →
        lines ≡ document_lines net normal crash segments }
{
    pc_cert::text_is_once();
}

/// States the certificate of the small deck, byte for byte, and the beginning of the one in version 2 where the second
/// unit saved of A costs 6; what is written of that deck's four segments is all that a certified one needs.
pub fn small_decks_are_written()
    ensures one_slope { text_of (document_lines small_deck along_a_and_b along_a_and_b
        (upper_segment ∷ lower_segment ∷ [])) ≡ small_certificate }
    ensures in_pieces { text_of (begun_lines small_deck_in_pieces along_a_and_b along_a_and_b (small_1 ∷ []))
        ≡ begun_in_pieces }
    ensures complete { IsComplete small_deck_in_pieces along_a_and_b along_a_and_b small_segments }
{
    pc_laws::curve_laws::pieces_are_worked();
}
