// What a host needs beside the calls: lengths, and the lines that it prints.
// It touches `telling` for the lines, `layout` for the lengths, and `packed` and `images` for the bytes.
ghost use Rattle.std.specs.Prelude.{◌≡◌};
ghost use Rattle.layout.specs.Shape.{shape_as, shape, within};
ghost use Rattle.layout.specs.Parts.{length_of};
ghost use Rattle.layout.specs.Spots.{capacity};
ghost use Rattle.images.specs.Back.{answer_in};
ghost use Rattle.packed.specs.Image.{drive_in};
ghost use Rattle.line.specs.Lines.{Put};
ghost use Rattle.sheets.specs.Sheet.{reported_line};
ghost use Rattle.reports.specs.Report.{report_of};
ghost use Rattle.telling.specs.Told.{refusal_text, nugget_answer, nugget_told};
ghost use Rattle.ngt.specs.Lines.{Lined};

use layout::Shape;

// "Length of a volume [..] for a shape and version; 0 if out of limits."
pub fn ngt_length(n: u32, p: u32, f: u32, version: u16) -> u64
    ensures { result ≡ within (shape_as version 0 n p f) (length_of (shape_as version 0 n p f)) }
{
    let s = Shape {
        n,
        p,
        f,
        version,
        cipher: 0,
    };
    layout::length_of(s) as u64
}

// "its capacity N P F"
pub fn ngt_capacity(n: u32, p: u32, f: u32) -> u64
    ensures { result ≡ within (shape n p f) (capacity (shape n p f)) }
{
    let s = Shape {
        n,
        p,
        f,
        version: 1,
        cipher: 0,
    };
    layout::capacity_of(s) as u64
}

// The refusal's line of an answer's image.
pub fn ngt_refusal_line(answer: &[u8; 16], out: &mut [u8; 128]) -> u32
    ensures { Put out.old 0 (refusal_text (answer_in answer.now)) result out.new }
{
    telling::refusal_line(answer, out)
}

// The sheet's line for an open drive of any size.
pub fn ngt_sheet_line(
    image: &[u8; 144],
    vol: &[u8],
    out: &mut [u8; 192],
    answer: &mut [u8; 16],
) -> u32
    ensures { Lined (report_of (drive_in image.now) vol.now).answer (reported_line (report_of (drive_in image.now) vol.now))
        out.old result out.new answer.new }
{
    let t = telling::sheet_line(packed::unpack(image), vol, out);
    *answer = images::answer_image(t.answer);
    t.count
}

// The auditor's line of one nugget.
pub fn ngt_nugget_line(
    image: &[u8; 144],
    vol: &[u8],
    nugget: u32,
    out: &mut [u8; 320],
    answer: &mut [u8; 16],
) -> u32
    ensures { Lined (nugget_answer (drive_in image.now) vol.now nugget) (nugget_told (drive_in image.now) vol.now nugget)
        out.old result out.new answer.new }
{
    let t = telling::nugget_line(packed::unpack(image), vol, nugget, out);
    *answer = images::answer_image(t.answer);
    t.count
}
