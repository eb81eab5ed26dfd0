//! What it means that some users get a different reply.
ghost use Rattle.hurd_pairs.specs.Told.{ReportIsOne, ToldBySeen};

/// A law: whoever gets a different reply in the second of two scripts saw something different before that, or at that moment.
pub fn different_reply_implies_different_view()
    ensures { ToldBySeen }
{}

/// A law: of two scripts one report is printed.
pub fn one_report_is_printed()
    ensures { ReportIsOne }
{}
