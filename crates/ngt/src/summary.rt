// Document 02's summary for C: the report's six numbers, and the three calls over a summary.
ghost use Rattle.std.specs.Prelude.{◌≡◌, length};
ghost use Rattle.packed.specs.Image.{drive_in};
ghost use Rattle.reports.specs.Report.{report_of};
ghost use Rattle.summaries.specs.Calls.{top_report, build_answer, build_summary, renew_answer, renew_summary};
ghost use Rattle.ngt.specs.Summary.{Tallied, Summed};

// "N, moved, left, flakes, share, done, 4 bytes each; all zero if refused".
pub fn ngt_tally(image: &[u8; 144], vol: &[u8], report: &mut [u8; 24], answer: &mut [u8; 16]) -> u32
    ensures { Tallied (report_of (drive_in image.now) vol.now) result report.new answer.new }
{
    let r = reports::report(crate::opened(*image), vol);
    *report = images::row(&[r.n, r.moved, r.left, r.flakes, r.share, r.done]);
    crate::told(answer, r.answer)
}

// The whole summary, whatever the buffer held.
pub fn ngt_summary_build(
    image: &[u8; 144],
    vol: &[u8],
    sum: &mut [u8],
    answer: &mut [u8; 16],
) -> u32
    ensures { Summed (build_answer (drive_in image.now) vol.now (length sum.old))
        (build_summary (drive_in image.now) vol.now sum.old) result sum.new answer.new }
{
    let a = summaries::build(crate::opened(*image), vol, sum);
    crate::told(answer, a)
}

// One nugget's path.
pub fn ngt_summary_renew(
    image: &[u8; 144],
    vol: &[u8],
    sum: &mut [u8],
    nugget: u32,
    answer: &mut [u8; 16],
) -> u32
    ensures { Summed (renew_answer (drive_in image.now) vol.now (length sum.old) nugget)
        (renew_summary (drive_in image.now) vol.now sum.old nugget) result sum.new answer.new }
{
    let a = summaries::renew(crate::opened(*image), vol, sum, nugget);
    crate::told(answer, a)
}

// "A report from the top entry".
pub fn ngt_summary_report(
    image: &[u8; 144],
    vol: &[u8],
    sum: &[u8],
    report: &mut [u8; 24],
    answer: &mut [u8; 16],
) -> u32
    ensures { Tallied (top_report (drive_in image.now) vol.now sum.now) result report.new answer.new }
{
    let r = summaries::top(crate::opened(*image), vol, sum);
    *report = images::row(&[r.n, r.moved, r.left, r.flakes, r.share, r.done]);
    crate::told(answer, r.answer)
}
